ghost use Rattle.std.specs.Prelude.{◌≡◌, ◌≤◌, not, ◌&&◌};
ghost use Rattle.marks.specs.Counts.{Counted, Counts};
ghost use Rattle.marks.specs.Meanings.{SamePattern, marked_sparsity};
ghost use Rattle.marks.specs.Nonlocals.{nonlocal_columns};
ghost use Rattle.marks.specs.Seen.{covered, seen};
ghost use Rattle.owners.specs.Lists.{list_of};
ghost use Rattle.owners.specs.Owned.{owned_by};
ghost use Rattle.pattern.specs.Columns.{among};
ghost use Rattle.pattern.specs.Sparsity.{row_at};
ghost use Rattle.stored.specs.Judged.{sparsity_of};

use super::counts::{RowCount, sees};
use super::memory::{Marked, Marks};
use owners::Owners;
use stored::Stored;

/// A count of the columns that a block does not own, over the slices of the columns.
#[derive(Drop)]
struct NotOwned<'a> {
    owners: &'a Owners,
    block: u32,
}

impl NotOwned<'_> {
    /// Whether a column is new to the count, and not owned by the block.
    fn counts(&self, new: bool, column: u32) -> bool
        ensures { result ≡ (new && not (owned_by (list_of self.now.owners.now) self.now.block column)) }
    {
        new && match self.owners.owner(column) {
            Some(owner) => u32::from(owner) != self.block,
            None => true,
        }
    }

    /// Marks these columns, and says how many of those that the block does not own the count had not seen.
    fn count_slice(&self, columns: &[u32], marks: &mut Marks, width: u32) -> u32
        requires { width ≤ covered marks.old }
        ensures counts { Counts width (λ c. not (owned_by (list_of self.now.owners.now) self.now.block c)) (among columns.now) (seen marks.old) (seen marks.new) result }
        ensures same { covered marks.new ≡ covered marks.old }
    {
        let mut new = 0;
        // As it is: a rule of the project needs it, that slices of columns are gone over with an index.
        for place in 0..columns.len() {
            let column = columns[place];
            let fresh = sees(marks, width, column);
            new += u32::from(self.counts(fresh, column));
        }
        new
    }
}

impl RowCount<Stored> for NotOwned<'_> {
    ghost about = { λ count c. not (owned_by (list_of count.owners.now) count.block c) };

    fn count_row(&self, marked: &mut Marked<Stored>, row: u32) -> u32 {
        self.count_slice(marked.pattern.row(row), &mut marked.marks, marked.width)
    }
}

impl Marked<Stored> {
    /// How many distinct columns the rows from `from` up to, not including, `to` have that a block does not own.
    pub fn nonlocal(&mut self, owners: &Owners, block: u32, from: u32, to: u32) -> u32
        ensures value { result ≡ nonlocal_columns (marked_sparsity sparsity_of self.old) (list_of owners.now) block from to }
        ensures same { SamePattern self.old self.new }
    {
        self.marks.begin();
        self.count_rows(&NotOwned { owners, block }, from, to)
    }
}
