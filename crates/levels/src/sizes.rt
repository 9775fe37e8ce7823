ghost use Rattle.std.specs.Prelude.{◌≡◌, ℕ, ◌+◌, ◌-◌, ◌*◌, ◌/◌, ◌^◌, ◌<◌, ◌≤◌};
ghost use Rattle.levels.specs.Layouts.{end_of};
ghost use Rattle.levels.specs.Numbers.{digits};
ghost use Rattle.levels.specs.Spans.{ends};

use super::layout::Layout;
use super::span::Span;

/// How many binary digits a number has: the fewest bits that hold it.
fn digit_count(greatest: u32) -> usize
    ensures value { result ≡ digits greatest }
    ensures hold { greatest < 2 ^ result }
    ensures least { (h : ℕ) → greatest < 2 ^ h → result ≤ h }
    ensures few { result ≤ 32 }
{
    // As it is: no `From` leads from a `u32` to a `usize`, in Rust neither.
    (u32::BITS - greatest.leading_zeros()) as usize
}

/// How many words a level takes: its number of zero bits, its bits, and a running count before each word and at the end.
fn level_words(words: usize) -> usize
    requires { words < 2 ^ 27 }
    ensures { result ≡ 2 * words + 2 }
{
    2 * words + 2
}

impl Span {
    /// How many words each of the levels takes.
    pub(crate) fn width(&self) -> usize
        ensures { result ≡ 2 * self.now.words + 2 }
    {
        level_words(self.words)
    }

    /// The levels below the first.
    #[tactic(auto, using(crate::proofs::Ends::ends_more, crate::proofs::Ends::room_for))]
    pub(crate) fn below(&self) -> Span
        requires { 0 < self.now.bits }
        ensures at { result.at ≡ self.now.at + (2 * self.now.words + 2) }
        ensures words { result.words ≡ self.now.words }
        ensures count { result.count ≡ self.now.count }
        ensures bits { result.bits ≡ self.now.bits - 1 }
    {
        Span {
            at: self.at + self.width(),
            words: self.words,
            count: self.count,
            bits: self.bits - 1,
        }
    }

    /// Where level `k` begins.
    #[tactic(auto, using(crate::proofs::Ends::ends_is))]
    pub(crate) fn level(&self, k: usize) -> usize
        requires { k < self.now.bits }
        ensures value { result ≡ ends self.now.words k self.now.at }
        ensures within { result + (2 * self.now.words + 2) ≤ ends self.now.words self.now.bits self.now.at }
    {
        self.at + k * self.width()
    }

    /// The word after the last level.
    #[tactic(auto, using(crate::proofs::Ends::ends_is))]
    pub(crate) fn end(&self) -> usize
        ensures value { result ≡ ends self.now.words self.now.bits self.now.at }
        ensures long { result ≡ self.now.at + self.now.bits * (2 * self.now.words + 2) }
    {
        self.at + self.bits * self.width()
    }
}

impl Layout {
    /// The layout from word `start` on of `count` numbers, none above `greatest`.
    pub fn new(start: u32, count: u32, greatest: u32) -> Layout
        ensures made { (result.start ≡ start) × (result.count ≡ count) × (result.words ≡ (count + 63) / 64) × (result.bits ≡ digits greatest) }
        ensures hold { greatest < 2 ^ result.bits }
        ensures least { (h : ℕ) → greatest < 2 ^ h → result.bits ≤ h }
    {
        let bits = digit_count(greatest);
        Layout {
            start: start as usize,
            count: count as usize,
            words: (count as usize + 63) / 64,
            bits,
        }
    }

    /// The levels.
    #[tactic(auto, using(crate::proofs::Ends::ends_near))]
    pub(crate) fn span(&self) -> Span
        ensures at { result.at ≡ self.now.start }
        ensures words { result.words ≡ self.now.words }
        ensures count { result.count ≡ self.now.count }
        ensures bits { result.bits ≡ self.now.bits }
    {
        Span {
            at: self.start,
            words: self.words,
            count: self.count,
            bits: self.bits,
        }
    }

    /// The word after the last level.
    pub fn end(&self) -> usize
        ensures value { result ≡ end_of self.now }
        ensures near { result < 2 ^ 40 }
        ensures long { result ≡ self.now.start + self.now.bits * (2 * self.now.words + 2) }
    {
        self.span().end()
    }
}
