// The calls of a run, and what they answer.
use crate::report::Report;
use refusal::Refusal;

/// A call of a search; a take is into a buffer of so many places, of which 1,025 count at most.
#[derive(Clone, Copy, PartialEq, Eq, Debug)]
pub enum Call {
    Advance(u32),
    Try(u64),
    Take(u32),
    Tell,
}

/// What a call answers.
#[derive(Clone, Copy, PartialEq, Eq, Debug)]
pub enum Answer {
    Advanced(Result<Report, Refusal>),
    Tried(Result<(bool, Report), Refusal>),
    Taken(Result<(), Refusal>),
    Told(Report),
}
