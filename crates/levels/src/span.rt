ghost use Rattle.std.specs.Prelude.{◌+◌, ◌*◌, ◌^◌, ◌<◌, ◌≤◌};
ghost use Rattle.levels.specs.Spans.{ends};

/// Levels one after another in memory: from which word on, how many words of bits each has, how many numbers they are for,
/// and how many levels there are.
#[derive(Clone, Copy)]
pub(crate) struct Span {
    pub(crate) at: usize,
    pub(crate) words: usize,
    pub(crate) count: usize,
    pub(crate) bits: usize,
    ghost near: { ends words bits at < 2 ^ 40 },
    ghost enough: { (count ≤ 64 * words) × (64 * words < count + 64) },
    ghost few: { (words < 2 ^ 27) × (bits ≤ 32) },
}
