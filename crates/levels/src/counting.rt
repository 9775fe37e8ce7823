ghost use Rattle.std.specs.Prelude.{◌≡◌, ℕ, ◌+◌, ◌-◌, ◌*◌, ◌%◌, ◌^◌, ◌<◌, ◌≤◌, List, length};
ghost use Rattle.levels.specs.Counting.{count_less};
ghost use Rattle.levels.specs.Layouts.{Has, InReach, Reaches};
ghost use Rattle.levels.specs.Numbers.{AllBelow, numbers_below, levels as Levels, sorted};
ghost use Rattle.levels.specs.Spans.{ends};
ghost use Rattle.std.specs.List.{between};

use super::layout::Layout;
use super::span::Span;

/// How many zeros a stretch has, by the ones before its start and before its far end.
fn zeros_within(from: usize, to: usize, ones_from: usize, ones_to: usize) -> usize
    ensures { result ≡ (to - from) - (ones_to - ones_from) }
{
    to.saturating_sub(from)
        .saturating_sub(ones_to.saturating_sub(ones_from))
}

/// A place among the ones of the next level, which stand after its zeros; at most `top`.
fn among_ones(zeros: usize, ones: usize, top: usize) -> usize
    ensures value { zeros + ones ≤ top → result ≡ zeros + ones }
    ensures bound { result ≤ top }
{
    zeros.saturating_add(ones).min(top)
}

impl Span {
    /// Where the numbers of a stretch go in the next level that have the same highest bit as `x`, and how many of the others
    /// are below `x`.
    #[tactic(auto, using(crate::proofs::Ends::room_for))]
    fn descend(&self, memory: &[u64], from: usize, to: usize, x: u32) -> (usize, usize, usize)
        requires { InReach self.now memory.now × (0 < self.now.bits) × (from ≤ 64 * self.now.words) × (to ≤ 64 * self.now.words) }
        ensures within { (result.0 ≤ 64 * self.now.words) × (result.1 ≤ 64 * self.now.words) }
        ensures counted { (cs : List ℕ) → length cs ≤ 64 * self.now.words → between self.now.at (ends self.now.words self.now.bits self.now.at) memory.now ≡ Levels self.now.words self.now.bits cs → from ≤ to → to ≤ length cs → (result.0 ≤ result.1) × (result.1 ≤ length cs) × (count_less self.now.bits x (between from to cs) ≡ result.2 + count_less (self.now.bits - 1) x (between result.0 result.1 (sorted (self.now.bits - 1) cs))) }
    {
        let ones_from = self.ones_before(memory, from);
        let ones_to = self.ones_before(memory, to);
        if (x >> (self.bits - 1)) & 1 == 0 {
            return (
                from.saturating_sub(ones_from),
                to.saturating_sub(ones_to),
                0,
            );
        }
        let zeros = memory[self.at] as usize;
        let top = 64 * self.words;
        (
            among_ones(zeros, ones_from, top),
            among_ones(zeros, ones_to, top),
            zeros_within(from, to, ones_from, ones_to),
        )
    }

    /// How many of the numbers of a stretch are below `x` by their lowest bits.
    fn found_below(&self, memory: &[u64], mut from: usize, mut to: usize, x: u32) -> usize
        requires { InReach self.now memory.now × (from ≤ 64 * self.now.words) × (to ≤ 64 * self.now.words) }
        ensures { (cs : List ℕ) → length cs ≤ 64 * self.now.words → between self.now.at (ends self.now.words self.now.bits self.now.at) memory.now ≡ Levels self.now.words self.now.bits cs → from ≤ to → to ≤ length cs → count_less self.now.bits x (between from to cs) < 2 ^ 64 → result ≡ count_less self.now.bits x (between from to cs) }
    {
        let mut span = *self;
        let mut found = 0usize;
        while span.bits > 0 {
            let (next_from, next_to, more) = span.descend(memory, from, to, x);
            found = found.saturating_add(more);
            from = next_from;
            to = next_to;
            span = span.below();
        }
        found
    }
}

impl Layout {
    /// How many of the numbers at the places from `from` up to, not including, `to` are below `bound`.
    pub fn count_below(&self, memory: &[u64], from: usize, to: usize, bound: u32) -> usize
        ensures { (cs : List ℕ) → Reaches self.now memory.now → Has self.now memory.now cs → AllBelow (2 ^ self.now.bits) cs → bound < 2 ^ self.now.bits → from ≤ to → to ≤ self.now.count → result ≡ numbers_below bound (between from to cs) }
    {
        if self.end() > memory.len() || from > self.count || to > self.count {
            return 0;
        }
        self.span().found_below(memory, from, to, bound)
    }
}
