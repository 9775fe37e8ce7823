//! Sparsity patterns: where the entries of a matrix stand.
#![tactic(auto)]

ghost use Rattle.std.specs.Prelude.{◌≡◌, ℕ};
ghost use Rattle.pattern.specs.Sparsity.{Lawful, Sparsity, column_at, entries_between, entry_count, row_count};

/// A number counted from 0 on.
fn from_none(counted: u32) -> u32
    ensures { result ≡ counted }
{
    counted
}

/// A sparsity pattern, by the questions that can be put to it. No question changes it.
pub trait Pattern {
    /// Which columns each row has, and how many columns there are.
    ghost sparsity: { Self → Sparsity };

    /// How many rows there are.
    fn row_count(&self) -> u32
        ensures { result ≡ row_count (sparsity self.now) };

    /// How many columns there are.
    fn column_count(&self) -> u32
        ensures { result ≡ (sparsity self.now).column_count };

    /// How many entries a row has; none from the number of rows on.
    fn entry_count(&self, row: u32) -> u32
        ensures { result ≡ entry_count (sparsity self.now) row };

    /// The column at a place in a row; the number of columns past the row's end.
    fn column(&self, row: u32, place: u32) -> u32
        ensures { result ≡ column_at (sparsity self.now) row place };

    /// How many entries the rows from `from` up to, not including, `to` have.
    fn entries_between(&self, from: u32, to: u32) -> u32
        ensures { result ≡ entries_between (sparsity self.now) from to }
    {
        let end = to.min(self.row_count());
        from_none((from.min(end)..end).map(|row| self.entry_count(row)).sum())
    }

    /// The sizes are within the limits, and each row's columns rise and are in range.
    ghost lawful: { (x : Self) → Lawful (sparsity x) };
}
