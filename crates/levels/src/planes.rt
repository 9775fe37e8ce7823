ghost use Rattle.std.specs.Prelude.{◌≡◌, ℕ, ◌+◌, ◌-◌, ◌*◌, ◌%◌, ◌^◌, ◌<◌, ◌≤◌, length, slice_index, slice_set};
ghost use Rattle.gather.specs.Bits.{bit_of, sum_to};
ghost use Rattle.levels.specs.Layouts.{InReach};
ghost use Rattle.levels.specs.Planes.{Outside, bit_at, bits_from};

use super::span::Span;
use gather::set_bits;

/// Writes a word.
pub(crate) fn put_word(ws: &mut [u64], i: usize, v: u64)
    requires { i < length ws.old }
    ensures { ws.new ≡ slice_set ws.old i v }
{
    ws[i] = v;
}

/// Writes how many positions are set before a word, and goes on with the count over the word.
fn count_word(place: &mut u64, word: u64, before: usize) -> usize
    requires { before < 2 ^ 60 }
    ensures value { result ≡ before + sum_to (bit_of word) 64 }
    ensures after { place.new ≡ before }
{
    // As it is: no `From` leads from a `usize` to a `u64`, in Rust neither.
    *place = before as u64;
    before + set_bits(word)
}

/// Writes how many positions are set before each word of a plane, and in all, which it returns.
fn tally(plane: &[u64], counts: &mut [u64]) -> usize
    requires { (length counts.old ≡ length plane.now + 1) × (length plane.now < 2 ^ 40) }
    ensures total { result ≡ sum_to (bit_at plane.now) (64 * length plane.now) }
    ensures counts { (i : ℕ) → i ≤ length plane.now → slice_index counts.new i ≡ sum_to (bit_at plane.now) (64 * i) }
{
    let mut sum = 0;
    for (i, word) in plane.iter().enumerate() {
        sum = count_word(&mut counts[i], *word, sum);
    }
    counts[plane.len()] = sum as u64;
    sum
}

/// The bits below position `k % 64` of a word.
fn lower(k: usize) -> u64
    ensures { result ≡ 2 ^ (k % 64) - 1 }
{
    (1 << (k % 64)) - 1
}

impl Span {
    /// The bit at a place of the first plane.
    #[tactic(auto, using(crate::proofs::Ends::room_for))]
    pub(crate) fn bit(&self, memory: &[u64], place: usize) -> u64
        requires { InReach self.now memory.now × (0 < self.now.bits) × (place < 64 * self.now.words) }
        ensures { result ≡ bits_from memory.now (self.now.at + 1) place }
    {
        (memory[self.at + 1 + place / 64] >> (place % 64)) & 1
    }

    /// How many places below `k` are set in the first plane, by the running counts that follow it.
    #[tactic(auto, using(crate::proofs::Ends::room_for))]
    pub(crate) fn ones_before(&self, memory: &[u64], k: usize) -> usize
        requires { InReach self.now memory.now × (0 < self.now.bits) × (k ≤ 64 * self.now.words) }
        ensures { ((i : ℕ) → i ≤ self.now.words → slice_index memory.now (self.now.at + 1 + self.now.words + i) ≡ sum_to (bits_from memory.now (self.now.at + 1)) (64 * i)) → result ≡ sum_to (bits_from memory.now (self.now.at + 1)) k }
    {
        let plane = self.at + 1;
        let before = memory[plane + self.words + k / 64] as usize;
        before.saturating_add(set_bits(memory[plane + k / 64] & lower(k)))
    }

    /// Writes the running counts after the first plane, and says how many places are set in it.
    #[tactic(auto, using(crate::proofs::Ends::room_for))]
    pub(crate) fn tally(&self, memory: &mut [u64]) -> usize
        requires { InReach self.now memory.old × (0 < self.now.bits) }
        ensures total { result ≡ sum_to (bits_from memory.old (self.now.at + 1)) (64 * self.now.words) }
        ensures counts { (i : ℕ) → i ≤ self.now.words → slice_index memory.new (self.now.at + 1 + self.now.words + i) ≡ sum_to (bits_from memory.old (self.now.at + 1)) (64 * i) }
        ensures outside { Outside (self.now.at + 1 + self.now.words) (self.now.at + 1 + 2 * self.now.words + 1) memory.old memory.new }
    {
        let (before, counts) = memory.split_at_mut(self.at + 1 + self.words);
        tally(&before[self.at + 1..], &mut counts[..self.words + 1])
    }
}
