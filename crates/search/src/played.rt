// What whole runs come to.
use crate::call::Answer;
use crate::report::Report;
use refusal::Refusal;

/// What a run has come to: what tell then answers, the standing cut with its boundaries in front, if one stands, and
/// what the last call answered, if there was one.
#[derive(PartialEq, Eq, Debug, Drop)]
pub struct Played {
    pub report: Report,
    // As it is: places for the most blocks there can be, as a search holds them.
    pub cut: Option<[u32; 1025]>,
    pub last: Option<Answer>,
}

/// One of two runs.
#[derive(Clone, Copy, PartialEq, Eq, Debug)]
pub enum Run {
    First,
    Second,
}

/// The run of which the search cannot be opened, and why.
#[derive(Clone, Copy, PartialEq, Eq, Debug)]
pub struct Unopened {
    pub run: Run,
    pub reason: Refusal,
}
