ghost use Rattle.std.specs.Prelude.{◌≡◌, ◌≤◌, true, is_ok, Ok, Err, MatchBool};
ghost use Rattle.marks.specs.Meanings.{Square, marked_sparsity};
ghost use Rattle.marks.specs.Seen.{SameMarks, covered};
ghost use Rattle.pattern.specs.Sparsity.{entries_between, row_count};

use super::memory::{Marked, Marks, Unmarked};
use pattern::Pattern;

impl<P: Pattern> Marked<P> {
    /// The pattern with a mark for each of its columns. Only want of memory is an error, and there is none where the marks
    /// that are brought suffice.
    pub fn new(pattern: P, mut marks: Marks) -> Result<Marked<P>, Unmarked<P>>
        ensures cases { elim result [ Ok m ↦ (marked_sparsity P.sparsity m ≡ P.sparsity pattern) × (m.pattern ≡ pattern) | Err u ↦ (u.pattern ≡ pattern) × SameMarks marks u.marks ] }
        ensures succeeds { (P.sparsity pattern).column_count ≤ covered marks → is_ok result ≡ true }
    {
        let width = pattern.column_count();
        // As it is: both arms move the pattern and the marks, which one closure of a method could not.
        match marks.cover(width) {
            Ok(()) => Ok(Marked {
                pattern,
                marks,
                width,
            }),
            Err(error) => Err(Unmarked {
                error,
                pattern,
                marks,
            }),
        }
    }

    /// The pattern, to be asked.
    pub fn pattern(&self) -> &P
        ensures { result.now ≡ self.now.pattern }
    {
        &self.pattern
    }

    /// How many rows the pattern has.
    pub fn row_count(&self) -> u32
        ensures { result ≡ row_count (marked_sparsity P.sparsity self.now) }
    {
        self.pattern.row_count()
    }

    /// How many columns the pattern has.
    pub fn column_count(&self) -> u32
        ensures { result ≡ self.now.width }
    {
        self.width
    }

    /// How many entries the rows from `from` up to, not including, `to` have.
    pub fn entries_between(&self, from: u32, to: u32) -> u32
        ensures { result ≡ entries_between (marked_sparsity P.sparsity self.now) from to }
    {
        self.pattern.entries_between(from, to)
    }

    /// Whether there are as many columns as rows.
    pub fn is_square(&self) -> bool
        ensures { MatchBool result (Square (marked_sparsity P.sparsity self.now)) (Square (marked_sparsity P.sparsity self.now) → ⊥) }
    {
        self.row_count() == self.column_count()
    }

    /// The pattern and the marks, which serve other patterns as well.
    pub fn into_parts(self) -> (P, Marks)
        ensures { result ≡ (self.pattern, self.marks) }
    {
        let Marked {
            pattern,
            marks,
            width: _,
        } = self;
        (pattern, marks)
    }
}
