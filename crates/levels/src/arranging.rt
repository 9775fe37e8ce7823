ghost use Rattle.std.specs.Prelude.{◌≡◌, ℕ, ◌+◌, ◌-◌, ◌*◌, ◌%◌, ◌^◌, ◌<◌, ◌≤◌, List, length, slice_index};
ghost use Rattle.gather.specs.Bits.{bit_of, sum_to};
ghost use Rattle.levels.specs.Layouts.{Has, InReach, Reaches, end_of};
ghost use Rattle.levels.specs.Numbers.{level as Level, levels as Levels, plane};
ghost use Rattle.levels.specs.Planes.{Outside, bits_from};
ghost use Rattle.levels.specs.Spans.{Holds, Tails, ends, value_at};
ghost use Rattle.std.specs.List.{between};

use super::layout::Layout;
use super::planes::put_word;
use super::span::Span;

impl Span {
    /// Makes a level of the first plane, and says how many zero bits it has.
    #[tactic(auto, using(crate::proofs::Ends::room_for))]
    fn settle(&self, memory: &mut [u64]) -> usize
        requires reach { InReach self.now memory.old × (0 < self.now.bits) }
        requires tail { (k : ℕ) → self.now.count ≤ k → k < 64 * self.now.words → bits_from memory.old (self.now.at + 1) k ≡ 0 }
        ensures zeros { result ≡ self.now.count - sum_to (bits_from memory.old (self.now.at + 1)) self.now.count }
        ensures bits { (i : ℕ) → i < self.now.words → slice_index memory.new (self.now.at + 1 + i) ≡ slice_index memory.old (self.now.at + 1 + i) }
        ensures outside { Outside self.now.at (self.now.at + (2 * self.now.words + 2)) memory.old memory.new }
        ensures level { (cs : List ℕ) (u : ℕ) → length cs ≡ self.now.count → ((k : ℕ) → k < 64 * self.now.words → bits_from memory.old (self.now.at + 1) k ≡ bit_of (slice_index cs k) u) → between self.now.at (self.now.at + (2 * self.now.words + 2)) memory.new ≡ Level self.now.words (plane u cs) }
    {
        let ones = self.tally(memory);
        let zeros = self.count.saturating_sub(ones);
        put_word(memory, self.at, zeros as u64);
        zeros
    }

    /// Makes levels of the planes.
    fn finish(&self, memory: &mut [u64])
        requires reach { InReach self.now memory.old }
        requires tails { Tails self.now.words self.now.bits self.now.count memory.old self.now.at }
        ensures outside { Outside self.now.at (ends self.now.words self.now.bits self.now.at) memory.old memory.new }
        ensures levels { (cs : List ℕ) → length cs ≡ self.now.count → Holds self.now.words self.now.bits cs memory.old self.now.at → between self.now.at (ends self.now.words self.now.bits self.now.at) memory.new ≡ Levels self.now.words self.now.bits cs }
    {
        if self.bits > 0 {
            let zeros = self.settle(memory);
            let below = self.below();
            below.partition(memory, self.at + 1, zeros);
            below.finish(memory);
        }
    }
}

impl Layout {
    /// Makes levels of the numbers that stand at the places, in memory that reaches so far and has zero bits past the last.
    pub fn arrange(&self, memory: &mut [u64])
        ensures levels { (cs : List ℕ) → Reaches self.now memory.old → length cs ≡ self.now.count → ((q : ℕ) → q < 64 * self.now.words → value_at self.now.words self.now.bits memory.old self.now.start q ≡ slice_index cs q % 2 ^ self.now.bits) → Has self.now memory.new cs }
        ensures outside { Outside self.now.start (end_of self.now) memory.old memory.new }
    {
        if self.end() > memory.len() {
            return;
        }
        let span = self.span();
        if span.tails_clear(memory) {
            span.finish(memory);
        }
    }
}
