ghost use Rattle.std.specs.Prelude.{◌≡◌, ◌+◌};
ghost use Rattle.table.specs.Walks.{Knows, Stands, position};
ghost use Rattle.table.specs.Words.{total_entries};

use super::cursor::Cursor;
use pattern::Pattern;

/// How many columns a window has.
pub(crate) const WINDOW: usize = 262144;

/// A walk over the entries of a pattern, row after row, and how many are left. Its window has for each column from `first`
/// on the code of the nearest row before that has the column.
#[derive(Drop)]
pub(crate) struct Walk<'a, 'w, P: Pattern> {
    pub(crate) pattern: &'a P,
    pub(crate) cursor: Cursor,
    pub(crate) left: u32,
    pub(crate) first: u32,
    pub(crate) window: &'w mut [u32],
    ghost stands: { Stands (P.sparsity pattern.now) cursor },
    ghost rest: { position (P.sparsity pattern.now) cursor + left ≡ total_entries (P.sparsity pattern.now) },
    ghost knows: { Knows (P.sparsity pattern.now) cursor first window.now },
}
