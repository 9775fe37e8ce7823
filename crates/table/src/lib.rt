//! Counting tables: what a table of a pattern is, how one is filled, and how one is checked.
#![tactic(auto)]

mod batch;
mod checking;
mod cursor;
mod filling;
mod opened;
mod opening;
mod plan;
mod sizes;
mod starts;
mod storing;
mod telling;
mod walk;
mod walking;

ghost use Rattle.table.specs.Laws.{CodeLaw, DistinctLaw};

pub use checking::check_table;
pub use filling::fill;
pub use opened::Opened;
pub use sizes::table_size;

/// A code tells the nearest earlier row that has the column, over every pattern.
pub fn code_law()
    ensures { CodeLaw }
{}

/// Codes count the distinct columns of a run of rows, over every pattern.
pub fn distinct_law()
    ensures { DistinctLaw }
{}
