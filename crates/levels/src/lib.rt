//! Levels of bit planes over a list of numbers: written in memory that is lent, checked, and counted with.
#![tactic(auto)]

mod arranging;
mod checking;
mod counting;
mod every;
mod layout;
mod partition;
mod planes;
mod sizes;
mod span;
mod storing;
mod streams;

pub use layout::Layout;
