//! The bits of a word at the set bits of another, brought together.
#![tactic(auto)]

mod masks;
mod moving;
mod words;

pub use masks::Masks;
pub use words::set_bits;
