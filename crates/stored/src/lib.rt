//! The stored pattern: compressed sparse rows that own their lists, checked once and for good.
#![tactic(auto)]

mod answers;
mod check;
mod lists;

pub use lists::{Stored, Unchecked};
