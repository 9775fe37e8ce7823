//! Marks for columns: a pattern with memory of its own to count the distinct columns of its rows.
#![tactic(auto)]

mod counts;
mod joining;
mod memory;
mod nonlocal;
mod seeing;

pub use memory::{Marked, Marks, Unmarked};
