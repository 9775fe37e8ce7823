ghost use Rattle.std.specs.Prelude.{◌≡◌, ℕ, ◌+◌, ◌-◌, ◌*◌, ◌/◌, ◌%◌, ◌^◌, ◌<◌, ◌≤◌, length, MatchBool, MatchOption, ◌≢◌, slice_index};
ghost use Rattle.gather.specs.Bits.{sum_to};
ghost use Rattle.levels.specs.Layouts.{InReach, Reaches};
ghost use Rattle.levels.specs.Planes.{bit_at, bits_from};
ghost use Rattle.levels.specs.Spans.{Tails};
ghost use Rattle.levels.specs.Traces.{AllStand, Stands, Traced, onward};

use super::layout::Layout;
use super::span::Span;
use gather::set_bits;

/// Whether a word has no bit from a place on.
fn clear_from(word: u64, place: usize) -> bool
    requires { place < 64 }
    ensures { MatchBool result (word / 2 ^ place ≡ 0) (word / 2 ^ place ≢ 0) }
{
    word >> place == 0
}

/// Whether a level's bits from position `n` on are zero; there are fewer than 64 of them.
fn tail_clear(level: &[u64], words: usize, n: usize) -> bool
    requires { (length level.now ≡ 2 * words + 2) × (n ≤ 64 * words) × (64 * words < n + 64) }
    ensures { MatchBool result ((k : ℕ) → n ≤ k → k < 64 * words → bits_from level.now 1 k ≡ 0) (((k : ℕ) → n ≤ k → k < 64 * words → bits_from level.now 1 k ≡ 0) → ⊥) }
{
    n % 64 == 0 || clear_from(level[1 + n / 64], n % 64)
}

/// How many bits of a plane are set, where the running counts are right.
fn counted(plane: &[u64], counts: &[u64]) -> Option<usize>
    requires { (length counts.now ≡ length plane.now + 1) × (length plane.now < 2 ^ 40) }
    ensures { MatchOption result (((i : ℕ) → i ≤ length plane.now → slice_index counts.now i ≡ sum_to (bit_at plane.now) (64 * i)) → ⊥) (λ s. (s ≡ sum_to (bit_at plane.now) (64 * length plane.now)) × ((i : ℕ) → i ≤ length plane.now → slice_index counts.now i ≡ sum_to (bit_at plane.now) (64 * i))) }
{
    let mut sum = 0;
    for (i, word) in plane.iter().enumerate() {
        if counts[i] != sum as u64 {
            return None;
        }
        sum += set_bits(*word);
    }
    if counts[plane.len()] != sum as u64 {
        return None;
    }
    Some(sum)
}

/// Whether a level agrees with itself.
fn level_stands(level: &[u64], words: usize, n: usize) -> bool
    requires { (length level.now ≡ 2 * words + 2) × (words < 2 ^ 27) × (n ≤ 64 * words) × (64 * words < n + 64) }
    ensures { MatchBool result (Stands words n level.now 0) (Stands words n level.now 0 → ⊥) }
{
    match counted(&level[1..words + 1], &level[words + 1..]) {
        Some(ones) => level[0] == n.saturating_sub(ones) as u64 && tail_clear(level, words, n),
        None => false,
    }
}

impl Span {
    /// Whether each plane has zero bits after the last place.
    pub(crate) fn tails_clear(&self, memory: &[u64]) -> bool
        requires { InReach self.now memory.now }
        ensures { MatchBool result (Tails self.now.words self.now.bits self.now.count memory.now self.now.at) (Tails self.now.words self.now.bits self.now.count memory.now self.now.at → ⊥) }
    {
        let words = self.words;
        let count = self.count;
        self.all(memory, |level| tail_clear(level, words, count))
    }

    /// Whether each level agrees with itself.
    fn stand(&self, memory: &[u64]) -> bool
        requires { InReach self.now memory.now }
        ensures { MatchBool result (AllStand self.now.words self.now.bits self.now.count memory.now self.now.at) (AllStand self.now.words self.now.bits self.now.count memory.now self.now.at → ⊥) }
    {
        let words = self.words;
        let count = self.count;
        self.all(memory, |level| level_stands(level, words, count))
    }

    /// Where a place of the first level goes in the next one.
    #[tactic(auto, using(crate::proofs::Ends::room_for))]
    fn next_place(&self, memory: &[u64], place: usize) -> usize
        requires { InReach self.now memory.now × (0 < self.now.bits) × (place < self.now.count) }
        ensures { Stands self.now.words self.now.count memory.now self.now.at → (result ≡ onward memory.now self.now.at place) × (result < self.now.count) }
    {
        let ones = self.ones_before(memory, place);
        if self.bit(memory, place) == 0 {
            place.saturating_sub(ones)
        } else {
            (memory[self.at] as usize).saturating_add(ones)
        }
    }

    /// Whether the bits of a number stand on its way down from a place.
    #[tactic(auto, using(crate::proofs::Ends::ends_below))]
    fn trace(&self, memory: &[u64], mut place: usize, number: u32) -> bool
        requires { InReach self.now memory.now × (place < self.now.count) }
        ensures { AllStand self.now.words self.now.bits self.now.count memory.now self.now.at → MatchBool result (Traced self.now.words self.now.bits memory.now self.now.at place number) (Traced self.now.words self.now.bits memory.now self.now.at place number → ⊥) }
    {
        let mut span = *self;
        while span.bits > 0 {
            let digit = (number >> (span.bits - 1)) & 1;
            if span.bit(memory, place) != u64::from(digit) {
                return false;
            }
            place = span.next_place(memory, place);
            if place >= span.count {
                return false;
            }
            span = span.below();
        }
        true
    }
}

impl Layout {
    /// Whether the memory reaches so far, and each level there agrees with itself: its number of zero bits, its running
    /// counts, and zero bits after the last place.
    pub fn stands(&self, memory: &[u64]) -> bool
        ensures { MatchBool result (Reaches self.now memory.now × AllStand self.now.words self.now.bits self.now.count memory.now self.now.start) (Reaches self.now memory.now × AllStand self.now.words self.now.bits self.now.count memory.now self.now.start → ⊥) }
    {
        self.end() <= memory.len() && self.span().stand(memory)
    }

    /// Whether a number stands at a place: in levels that agree with themselves, whether its bits are found on the way down.
    pub fn traces(&self, memory: &[u64], place: usize, number: u32) -> bool
        ensures { Reaches self.now memory.now → AllStand self.now.words self.now.bits self.now.count memory.now self.now.start → place < self.now.count → MatchBool result (Traced self.now.words self.now.bits memory.now self.now.start place number) (Traced self.now.words self.now.bits memory.now self.now.start place number → ⊥) }
    {
        if self.end() > memory.len() || place >= self.count {
            return false;
        }
        self.span().trace(memory, place, number)
    }
}
