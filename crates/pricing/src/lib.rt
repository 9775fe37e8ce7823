//! Costs over patterns.
#![tactic(auto)]

mod counted;
mod counting;
mod footprint;
mod nonlocal;
mod priced;
mod scanned;
mod weights;
mod work;

pub use counted::Counted;
pub use counting::Count;
pub use footprint::{ColumnsAndRows, Footprint};
pub use nonlocal::{Nonlocal, NonlocalColumns};
pub use priced::Priced;
pub use scanned::Scanned;
pub use weights::Weights;
pub use work::Work;
