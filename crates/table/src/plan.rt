ghost use Rattle.std.specs.Prelude.{◌≡◌};
ghost use Rattle.table.specs.Stores.{LaidOut};
ghost use Rattle.table.specs.Words.{total_entries};

use levels::Layout;
use pattern::Pattern;

/// A pattern, how many entries it has, and where their codes stand in its table.
#[derive(Drop)]
pub(crate) struct Plan<'a, P: Pattern> {
    pub(crate) pattern: &'a P,
    pub(crate) entries: u32,
    pub(crate) layout: Layout,
    ghost total: { entries ≡ total_entries (P.sparsity pattern.now) },
    ghost laid: { LaidOut (P.sparsity pattern.now) layout },
}
