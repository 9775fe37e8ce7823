ghost use Rattle.std.specs.Prelude.{◌≡◌, IfOk, Some, None, Ok, Err, MatchBool};
ghost use Rattle.pattern.specs.Sparsity.{Ordered, RowOrdered};
ghost use Rattle.stored.specs.Csr.{Climbing, Framed, Sized};
ghost use Rattle.stored.specs.Judged.{Holds, JudgedOf, ShapedOf, brought_sparsity, sparsity_of};

use super::lists::{Stored, Unchecked};
use refusal::{Declined, Refusal};
use std::alloc::{AllocError, Global};

/// Whether the columns of one row are in range and rise.
// As it is: a chain would read each column twice, beside its neighbours, or go on past the first that is out of range.
fn row_ordered(width: u32, row: &[u32]) -> bool
    ensures { MatchBool result (RowOrdered width row.now) (RowOrdered width row.now → ⊥) }
{
    let mut least = 0;
    for column in row {
        if *column < least || *column >= width {
            return false;
        }
        least = *column + 1;
    }
    true
}

impl Unchecked {
    /// A pattern over copies of these lists. Only want of memory is an error.
    pub fn copied(
        heap: Global,
        width: u32,
        starts: &[u32],
        columns: &[u32],
    ) -> Result<Unchecked, AllocError>
        ensures { IfOk result (λ u. (u.width ≡ width) × (u.starts.items ≡ starts.now) × (u.columns.items ≡ columns.now)) }
    {
        let starts = Vec::from_slice(heap, starts)?;
        let columns = Vec::from_slice(heap, columns)?;
        Ok(Unchecked {
            width,
            starts,
            columns,
        })
    }

    /// Whether the sizes are within the limits.
    fn sizes_fit(&self) -> bool
        ensures { MatchBool result (Sized self.now.width self.now.starts.items self.now.columns.items) (Sized self.now.width self.now.starts.items self.now.columns.items → ⊥) }
    {
        self.starts.len() <= 1_000_001
            && self.width <= 1_000_000
            && self.columns.len() <= 16_777_216
    }

    /// Whether the starts go from 0 to the number of columns listed.
    fn starts_frame(&self) -> bool
        ensures { MatchBool result (Framed self.now.starts.items self.now.columns.items) (Framed self.now.starts.items self.now.columns.items → ⊥) }
    {
        let (Some(first), Some(last)) = (self.starts.first(), self.starts.last()) else {
            return false;
        };
        *first == 0 && *last as usize == self.columns.len()
    }

    /// Whether no start is below the one before it.
    fn starts_climb(&self) -> bool
        ensures { MatchBool result (Climbing self.now.starts.items) (Climbing self.now.starts.items → ⊥) }
    {
        self.starts.is_sorted()
    }

    /// Whether the sizes and the starts are in order.
    fn shaped(&self) -> bool
        ensures { MatchBool result (ShapedOf self.now) (ShapedOf self.now → ⊥) }
    {
        self.sizes_fit() && self.starts_frame() && self.starts_climb()
    }

    /// Whether the columns of each row are in range and rise.
    fn rows_ordered(&self) -> bool
        requires { ShapedOf self.now }
        ensures { MatchBool result (Ordered (brought_sparsity self.now)) (Ordered (brought_sparsity self.now) → ⊥) }
    {
        for bounds in self.starts.windows(2) {
            let row = &self.columns[bounds[0] as usize..bounds[1] as usize];
            if !row_ordered(self.width, row) {
                return false;
            }
        }
        true
    }

    /// What the check would refuse this pattern for, if anything.
    pub fn fault(&self) -> Option<Refusal>
        ensures { JudgedOf self.now result }
    {
        if !self.shaped() {
            return Some(Refusal::Shape);
        }
        if !self.rows_ordered() {
            return Some(Refusal::Column);
        }
        None
    }

    /// The checked pattern over these lists, or this pattern again and what it was refused for.
    pub fn check(self) -> Result<Stored, Declined<Unchecked>>
        ensures { elim result [ Ok s ↦ JudgedOf self None × Holds self s × (sparsity_of s ≡ brought_sparsity self) | Err d ↦ JudgedOf self (Some d.reason) × (d.brought ≡ self) ] }
    {
        match self.fault() {
            None => Ok(Stored { lists: self }),
            Some(reason) => Err(Declined {
                reason,
                brought: self,
            }),
        }
    }
}

impl Stored {
    /// The lists that were brought, in an unchecked pattern again.
    pub fn into_unchecked(self) -> Unchecked
        ensures { Holds result self }
    {
        let Stored { lists } = self;
        lists
    }
}
