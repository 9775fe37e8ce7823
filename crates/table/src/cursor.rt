ghost use Rattle.std.specs.Prelude.{◌≡◌};
ghost use Rattle.pattern.specs.Sparsity.{entry_count};

use pattern::Pattern;

/// An entry's row, its place in the row, and how many entries the row has.
#[derive(Clone, Copy)]
pub(crate) struct Cursor {
    pub(crate) row: u32,
    pub(crate) place: u32,
    pub(crate) size: u32,
}

impl Cursor {
    /// The first place of a row.
    pub(crate) fn at<P: Pattern>(pattern: &P, row: u32) -> Cursor
        ensures { (result.row ≡ row) × (result.place ≡ 0) × (result.size ≡ entry_count (P.sparsity pattern.now) row) }
    {
        Cursor {
            row,
            place: 0,
            size: pattern.entry_count(row),
        }
    }
}
