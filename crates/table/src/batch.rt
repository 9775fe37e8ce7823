ghost use Rattle.std.specs.Prelude.{◌≡◌, ℕ, ◌<◌, MatchBool, IsSome, None, replicate, slice_index, slice_index_or, unwrap_or};

/// Up to 64 entries: the code of each that has its column in the window.
#[derive(Drop)]
pub(crate) struct Batch {
    pub(crate) found: [Option<u32>; 64],
}

impl Batch {
    /// No entries.
    pub(crate) fn empty() -> Batch
        ensures { result.found ≡ replicate 64 None }
    {
        Batch { found: [None; 64] }
    }

    /// Whether some entry has its column in the window.
    pub(crate) fn any(&self) -> bool
        ensures { MatchBool result ((k : ℕ) × ((k < 64) × IsSome (slice_index_or self.now.found k None))) ((k : ℕ) → k < 64 → slice_index_or self.now.found k None ≡ None) }
    {
        self.found.iter().any(|code| code.is_some())
    }

    /// The codes, and 0 where there is none.
    pub(crate) fn codes(&self) -> [u32; 64]
        ensures { (k : ℕ) → k < 64 → slice_index result k ≡ unwrap_or (slice_index_or self.now.found k None) 0 }
    {
        // As it is: with `map` in place of the loop, filling the table of 4,000,000 entries takes a seventh longer.
        let mut codes = [0; 64];
        for (k, code) in self.found.iter().enumerate() {
            codes[k] = code.unwrap_or(0);
        }
        codes
    }
}
