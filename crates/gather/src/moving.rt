ghost use Rattle.std.specs.Prelude.{◌≡◌, ℕ, ◌-◌, ◌<◌, length, slice_index};
ghost use Rattle.gather.specs.Bits.{bit_of};
ghost use Rattle.gather.specs.Gathered.{Along, Gathered, Steers, Stepped};
ghost use Rattle.gather.specs.Selections.{selection};

use super::masks::Masks;
use super::words::{lacks, others, parity, shared, step, unset};

/// The six binary digits of the number of unset bits below each selected bit, the lowest first.
fn digits(selected: u64) -> [u64; 6]
    ensures { (k : ℕ) → k < 6 → Along selected 0 k (slice_index result k) }
{
    let mut digits = [0; 6];
    let mut gaps = unset(selected);
    for digit in digits.iter_mut() {
        let odd = parity(gaps);
        *digit = shared(odd, selected);
        gaps = lacks(gaps, odd);
    }
    digits
}

/// One step of each of the words.
fn step_each(words: &mut [u64], down: u64, places: u32)
    requires { places < 64 }
    ensures { (k : ℕ) → k < length words.old → Stepped (slice_index words.old k) down places (slice_index words.new k) }
{
    for word in words.iter_mut() {
        *word = step(*word, down, places);
    }
}

/// Which bits go down in each of the six steps: those whose digit says so. The digits of later steps go along with their
/// bits.
fn steering(selected: u64) -> [u64; 6]
    ensures { (i : ℕ) → i < 6 → Steers selected i (slice_index result i) }
{
    let mut steps = digits(selected);
    for i in 0..6 {
        let down = steps[i];
        step_each(&mut steps[i + 1..], down, 1 << i);
    }
    steps
}

/// The selected bits of a word brought together, step by step.
fn brought(word: u64, masks: &Masks) -> u64
    ensures { Gathered (selection masks.now) word result }
{
    let mut moving = shared(word, masks.selected);
    for (i, down) in masks.steps.iter().enumerate() {
        moving = step(moving, *down, 1 << i);
    }
    moving
}

impl Masks {
    /// The masks for the set bits of `selected`.
    pub fn selecting(selected: u64) -> Masks
        ensures { selection result ≡ selected }
    {
        let steps = steering(selected);
        Masks { selected, steps }
    }

    /// The masks for the other bits.
    pub fn leaving(left: u64) -> Masks
        ensures { (p : ℕ) → p < 64 → bit_of (selection result) p ≡ 1 - bit_of left p }
    {
        Masks::selecting(others(left))
    }

    /// The selected bits of a word, from bit 0 on and in their order, and zeros after them.
    pub fn gather(&self, word: u64) -> u64
        ensures { Gathered (selection self.now) word result }
    {
        brought(word, self)
    }
}
