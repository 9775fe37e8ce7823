ghost use Rattle.std.specs.Prelude.{◌≡◌, ℕ, ◌+◌, ◌*◌, ◌/◌, ◌%◌, ◌^◌, ◌<◌, ◌≤◌, length, slice_index};
ghost use Rattle.gather.specs.Bits.{bit_of};
ghost use Rattle.levels.specs.Layouts.{InReach, Reaches, end_of};
ghost use Rattle.levels.specs.Planes.{Outside};
ghost use Rattle.levels.specs.Spans.{ends, value_at};

use super::layout::Layout;
use super::span::Span;
use super::streams::or_word;

/// One bit of each of 64 numbers, the first number's lowest.
fn column_of_bits(numbers: &[u32; 64], digit: usize) -> u64
    requires { digit < 32 }
    ensures { (k : ℕ) → k < 64 → bit_of result k ≡ bit_of (slice_index numbers.now k) digit }
{
    let mut word = 0;
    for (k, number) in numbers.iter().enumerate() {
        word |= u64::from((*number >> digit) & 1) << k;
    }
    word
}

impl Span {
    /// Adds the lowest bits of 64 numbers to one word of each plane.
    #[tactic(auto, using(crate::proofs::Ends::ends_below, crate::proofs::Ends::room_for))]
    fn store(&self, memory: &mut [u64], word: usize, numbers: &[u32; 64])
        requires { InReach self.now memory.old × (word < self.now.words) }
        ensures here { (k : ℕ) → k < 64 → value_at self.now.words self.now.bits memory.old self.now.at (64 * word + k) ≡ 0 → value_at self.now.words self.now.bits memory.new self.now.at (64 * word + k) ≡ slice_index numbers.now k % 2 ^ self.now.bits }
        ensures kept { (k : ℕ) → k < 64 → slice_index numbers.now k ≡ 0 → value_at self.now.words self.now.bits memory.new self.now.at (64 * word + k) ≡ value_at self.now.words self.now.bits memory.old self.now.at (64 * word + k) }
        ensures others { (q : ℕ) → (q / 64 ≡ word → ⊥) → q < 64 * self.now.words → value_at self.now.words self.now.bits memory.new self.now.at q ≡ value_at self.now.words self.now.bits memory.old self.now.at q }
        ensures outside { Outside self.now.at (ends self.now.words self.now.bits self.now.at) memory.old memory.new }
    {
        if self.bits > 0 {
            let bits = column_of_bits(numbers, self.bits - 1);
            or_word(memory, self.at + 1 + word, bits);
            self.below().store(memory, word, numbers);
        }
    }
}

impl Layout {
    /// Clears the words of the levels, where the memory reaches so far: every place then holds 0.
    pub fn clear(&self, memory: &mut [u64])
        ensures zero { Reaches self.now memory.old → (q : ℕ) → q < 64 * self.now.words → value_at self.now.words self.now.bits memory.new self.now.start q ≡ 0 }
        ensures outside { Outside self.now.start (end_of self.now) memory.old memory.new }
    {
        let end = self.end();
        if end <= memory.len() {
            memory[self.start..end].fill(0);
        }
    }

    /// Puts 64 numbers at the places from `64 * word` on, by their lowest bits: a number joins a place that holds 0, and a 0
    /// leaves its place as it is.
    pub fn put(&self, memory: &mut [u64], word: usize, numbers: &[u32; 64])
        ensures here { Reaches self.now memory.old → word < self.now.words → (k : ℕ) → k < 64 → value_at self.now.words self.now.bits memory.old self.now.start (64 * word + k) ≡ 0 → value_at self.now.words self.now.bits memory.new self.now.start (64 * word + k) ≡ slice_index numbers.now k % 2 ^ self.now.bits }
        ensures kept { (k : ℕ) → k < 64 → slice_index numbers.now k ≡ 0 → value_at self.now.words self.now.bits memory.new self.now.start (64 * word + k) ≡ value_at self.now.words self.now.bits memory.old self.now.start (64 * word + k) }
        ensures others { (q : ℕ) → (q / 64 ≡ word → ⊥) → q < 64 * self.now.words → value_at self.now.words self.now.bits memory.new self.now.start q ≡ value_at self.now.words self.now.bits memory.old self.now.start q }
        ensures outside { Outside self.now.start (end_of self.now) memory.old memory.new }
    {
        if self.end() <= memory.len() && word < self.words {
            self.span().store(memory, word, numbers);
        }
    }
}
