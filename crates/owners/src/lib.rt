//! Who owns each column of a matrix.
#![tactic(auto)]

mod lookup;
mod owners;

pub use owners::Owners;
