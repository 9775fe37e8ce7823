//! Searches, run: the limits of opening and of each call, the smallest matrices, and a cost that counts the questions that
//! are put to it.
#![tactic(auto)]

pub mod counting;
#[cfg(test)]
mod limits;
#[cfg(test)]
mod runs;
