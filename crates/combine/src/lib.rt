//! Costs made of costs: two costs added, the greater of two, so many times a cost, and a cost with a limit on another.
#![tactic(auto)]

mod figures;
mod joined;
mod joining;
mod limit;
mod rows;
mod times;

pub use joined::{Greater, Joined, Sum, joined_law};
pub use joining::{Added, Join, Larger};
pub use limit::Limit;
pub use times::Times;
