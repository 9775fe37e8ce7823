ghost use Rattle.std.specs.Prelude.{◌≡◌};
ghost use Rattle.pattern.specs.Sparsity.{entries_between, row_count};

use pattern::Pattern;

/// Where the rows of a pattern start: each row, and how many entries come before it; past the last row, how many there are.
/// How many rows there are is asked once, since a pattern's answer may take time.
#[derive(Drop)]
pub(crate) struct Starts<'a, P: Pattern> {
    pub(crate) pattern: &'a P,
    pub(crate) rows: u32,
    pub(crate) row: u32,
    pub(crate) start: u32,
    ghost all: { rows ≡ row_count (P.sparsity pattern.now) },
    ghost started: { start ≡ entries_between (P.sparsity pattern.now) 0 row },
}

impl<'a, P: Pattern> Starts<'a, P> {
    /// From the first row on.
    pub(crate) fn of(pattern: &'a P) -> Starts<'a, P>
        ensures { (result.pattern.now ≡ pattern.now) × (result.row ≡ 0) }
    {
        Starts {
            pattern,
            rows: pattern.row_count(),
            row: 0,
            start: 0,
        }
    }
}

impl<P: Pattern> Iterator for Starts<'_, P> {
    ghost use Rattle.std.specs.Iterator.{YieldsFirst, item_count};
    ghost use Rattle.table.specs.Heads.{starts_from};

    type Item = (u32, u32);

    ghost next_gives = { YieldsFirst (λ it. starts_from (P.sparsity it.pattern.now) it.row) };

    ghost remaining = { item_count (λ it. starts_from (P.sparsity it.pattern.now) it.row) };

    fn next(&mut self) -> Option<(u32, u32)> {
        if self.row > self.rows {
            return None;
        }
        let item = (self.row, self.start);
        self.start += self.pattern.entry_count(self.row);
        self.row += 1;
        Some(item)
    }
}
