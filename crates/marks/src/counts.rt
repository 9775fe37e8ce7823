ghost use Rattle.std.specs.Prelude.{◌≡◌, ℕ, ◌+◌, ◌<◌, ◌≤◌, Bool, true, not, ◌&&◌, ◌||◌, ◌==◌, nat_lt};
ghost use Rattle.marks.specs.Counts.{Counted};
ghost use Rattle.marks.specs.Meanings.{SamePattern, marked_sparsity};
ghost use Rattle.marks.specs.Seen.{covered, seen};
ghost use Rattle.pattern.specs.Columns.{among, columns_and_rows, columns_in, distinct_columns, row_number};
ghost use Rattle.pattern.specs.Sparsity.{row_at};

use super::memory::{Marked, Marks};
use pattern::Pattern;

/// Marks a column that is below `width`, and says whether the present count had not seen it.
pub(crate) fn sees(marks: &mut Marks, width: u32, column: u32) -> bool
    requires { width ≤ covered marks.old }
    ensures value { result ≡ (nat_lt column width && not (seen marks.old column)) }
    ensures after { (c : ℕ) → c < width → seen marks.new c ≡ (seen marks.old c || column == c) }
    ensures same { covered marks.new ≡ covered marks.old }
{
    column < width && marks.first(column)
}

/// How a count goes over one row of a pattern, and which columns it is about.
pub(crate) trait RowCount<P: Pattern> {
    /// Which columns the count is about.
    ghost about: { Self → ℕ → Bool };

    /// Marks the columns of a row, and says how many of those that the count is about it had not seen.
    fn count_row(&self, marked: &mut Marked<P>, row: u32) -> u32
        ensures { Counted (about self.now) (among (row_at (P.sparsity marked.old.pattern) row)) marked.old marked.new result };
}

/// A count of each column, over the places of a row.
#[derive(Drop)]
struct EachColumn;

impl<P: Pattern> RowCount<P> for EachColumn {
    ghost about = { λ _ _. true };

    fn count_row(&self, marked: &mut Marked<P>, row: u32) -> u32 {
        let width = marked.width;
        let mut new = 0;
        // As it is: a pattern is asked place by place, and has no list of a row to go over.
        for place in 0..marked.pattern.entry_count(row) {
            let column = marked.pattern.column(row, place);
            new += u32::from(sees(&mut marked.marks, width, column));
        }
        new
    }
}

/// A count and what it went on with, added.
fn together(first: u32, second: u32) -> u32
    requires { first + second ≤ 1000000 }
    ensures { result ≡ first + second }
{
    first + second
}

impl<P: Pattern> Marked<P> {
    /// Marks the columns of the rows from `from` up to, not including, `to`, and says how many of those that the count is
    /// about it had not seen.
    pub(crate) fn count_rows<C: RowCount<P>>(&mut self, count: &C, from: u32, to: u32) -> u32
        ensures { Counted (C.about count.now) (among (columns_in (P.sparsity self.old.pattern) from to)) self.old self.new result }
    {
        let end = to.min(self.pattern.row_count());
        let mut new = 0;
        for row in from.min(end)..end {
            new += count.count_row(self, row);
        }
        new
    }

    /// Marks the row numbers from `from` up to, not including, `to` that are columns, and says how many a count of each
    /// column had not seen.
    fn count_numbers(&mut self, from: u32, to: u32) -> u32
        ensures { Counted (λ _. true) (row_number from to) self.old self.new result }
    {
        let width = self.width;
        let end = to.min(width);
        let mut new = 0;
        for row in from.min(end)..end {
            new += u32::from(sees(&mut self.marks, width, row));
        }
        new
    }

    /// How many distinct columns the rows from `from` up to, not including, `to` have.
    pub fn distinct(&mut self, from: u32, to: u32) -> u32
        ensures value { result ≡ distinct_columns (marked_sparsity P.sparsity self.old) from to }
        ensures same { SamePattern self.old self.new }
    {
        self.marks.begin();
        self.count_rows(&EachColumn, from, to)
    }

    /// How large the union of those columns and of the numbers of those rows is.
    pub fn union(&mut self, from: u32, to: u32) -> u32
        ensures value { result ≡ columns_and_rows (marked_sparsity P.sparsity self.old) from to }
        ensures same { SamePattern self.old self.new }
    {
        self.marks.begin();
        let numbers = self.count_numbers(from, to);
        together(numbers, self.count_rows(&EachColumn, from, to))
    }
}
