//! Cuts of rows into blocks, and the search for the one whose costliest block costs least.
#![tactic(auto)]

pub mod call;
pub mod digits;
mod halving;
pub mod played;
mod purpose;
pub mod report;
pub mod run;
pub mod search;
mod trial;
