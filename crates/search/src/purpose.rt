// What a trial is made for.
ghost use Rattle.std.specs.Prelude.{◌≡◌, if◌then◌else◌};
ghost use Rattle.search.specs.Purposes.{advances};

/// The call that makes a trial.
#[derive(Clone, Copy, PartialEq, Eq, Debug)]
pub(crate) enum Purpose {
    Advance,
    Try,
}

impl Purpose {
    /// One for the count that a trial is for, and none for the other.
    pub(crate) fn counts(self) -> (u32, u32)
        ensures advances { result.0 ≡ (if advances self then 1 else 0) }
        ensures tries { result.1 ≡ (if advances self then 0 else 1) }
    {
        match self {
            Purpose::Advance => (1, 0),
            Purpose::Try => (0, 1),
        }
    }
}
