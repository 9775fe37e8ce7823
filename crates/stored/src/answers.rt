ghost use Rattle.std.specs.Prelude.{◌≡◌, ◌+◌, ◌<◌, length, slice_index};
ghost use Rattle.pattern.specs.Sparsity.{row_at};
ghost use Rattle.stored.specs.Judged.{sparsity_of};
ghost use Rattle.stored.specs.Checked.{checked_lawful};

use super::lists::Stored;
use pattern::Pattern;

/// The column at a place from a row's start on.
fn column_from(columns: &[u32], start: u32, place: u32) -> u32
    requires { start + place < length columns.now }
    ensures { result ≡ slice_index columns.now (start + place) }
{
    columns[start as usize + place as usize]
}

impl Stored {
    /// The columns of a row, in one piece; none from the number of rows on.
    #[tactic(auto, using(crate::proofs::StoredRows::past, crate::proofs::StoredRows::end, crate::proofs::StoredRows::listed))]
    pub fn row(&self, row: u32) -> &[u32]
        ensures { result.now ≡ row_at (sparsity_of self.now) row }
    {
        match self.lists.starts.get(row as usize..) {
            Some([from, to, ..]) => &self.lists.columns[*from as usize..*to as usize],
            _ => &[],
        }
    }
}

impl Pattern for Stored {
    ghost sparsity = { sparsity_of };

    ghost lawful = { checked_lawful };

    #[tactic(auto, using(crate::proofs::StoredRows::height))]
    fn row_count(&self) -> u32 {
        (self.lists.starts.len() - 1) as u32
    }

    fn column_count(&self) -> u32 {
        self.lists.width
    }

    #[tactic(auto, using(crate::proofs::StoredRows::few))]
    fn entry_count(&self, row: u32) -> u32 {
        self.row(row).len() as u32
    }

    // As it is: asked of `row`, as a slice and a place in it, each column takes more than twice the time.
    #[tactic(auto, using(crate::proofs::StoredRows::inside, crate::proofs::StoredRows::rising, crate::proofs::StoredRows::column_is, crate::proofs::StoredRows::column_past, crate::proofs::StoredRows::no_column))]
    fn column(&self, row: u32, place: u32) -> u32 {
        let Some([from, to, ..]) = self.lists.starts.get(row as usize..) else {
            return self.lists.width;
        };
        if place < *to - *from {
            column_from(self.lists.columns.as_slice(), *from, place)
        } else {
            self.lists.width
        }
    }

    /// How many entries stand from the first row's start up to the end's.
    #[tactic(auto, using(crate::proofs::StoredRows::height, crate::proofs::StoredRows::cut))]
    fn entries_between(&self, from: u32, to: u32) -> u32 {
        let starts = self.lists.starts.as_slice();
        let end = to.min(self.row_count());
        let start = from.min(end);
        starts[end as usize] - starts[start as usize]
    }
}
