//! A cost of one's own: machines of unequal speed. Machine k takes a time to start, and then for each row its weight as
//! many times as the machine is slow.
#![tactic(auto)]

mod machines;
mod machines_answers;

pub use machines::Machines;
