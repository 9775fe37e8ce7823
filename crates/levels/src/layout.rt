ghost use Rattle.std.specs.Prelude.{◌+◌, ◌*◌, ◌^◌, ◌<◌, ◌≤◌};

/// Where the levels of a list of numbers stand in memory: from which word on, how many numbers there are, how many words
/// of bits a level has for them, and how many bits a number has.
#[derive(Clone, Copy)]
pub struct Layout {
    pub(crate) start: usize,
    pub(crate) count: usize,
    pub(crate) words: usize,
    pub(crate) bits: usize,
    ghost near: { start < 2 ^ 32 },
    ghost enough: { (count ≤ 64 * words) × (64 * words < count + 64) },
    ghost few: { (words < 2 ^ 27) × (bits ≤ 32) },
}
