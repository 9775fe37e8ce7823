ghost use Rattle.std.specs.Prelude.{◌≡◌, ◌+◌, ◌*◌};
ghost use Rattle.pricing.specs.Works.{Weight};

use refusal::{Declined, Refusal};

/// What a row, an entry and a distinct column of a block cost.
#[derive(Clone, Copy)]
pub struct Weights {
    pub row: u32,
    pub entry: u32,
    pub column: u32,
}

/// Weights that are within their limit.
// As it is: the numbers again and no Weights inside, so that prices read weights.row and not weights.weights.row.
#[derive(Clone, Copy)]
pub(crate) struct CheckedWeights {
    pub(crate) row: u32,
    pub(crate) entry: u32,
    pub(crate) column: u32,
    ghost fit: { Weight row × Weight entry × Weight column },
}

impl Weights {
    ghost use Rattle.std.specs.Prelude.{Ok, Err, MatchBool};
    ghost use Rattle.pricing.specs.Meanings.{Fit};
    ghost use Rattle.refusal.specs.declared.Refusal.TheVariants.{Price as OutOfRange};

    /// Whether no weight is above 1,000,000.
    fn fit(self) -> bool
        ensures { MatchBool result (Fit self) (Fit self → ⊥) }
    {
        self.row <= 1_000_000 && self.entry <= 1_000_000 && self.column <= 1_000_000
    }

    /// The weights as checked ones, and what is to be priced by them; a weight above 1,000,000 is refused, and what was
    /// brought is the caller's again.
    pub(crate) fn checked<T>(self, brought: T) -> Result<(T, CheckedWeights), Declined<T>>
        ensures { elim result [ Ok both ↦ Fit self × (both.0 ≡ brought) × (both.1.row ≡ self.row) × (both.1.entry ≡ self.entry) × (both.1.column ≡ self.column) | Err d ↦ (d.reason ≡ OutOfRange) × (Fit self → ⊥) × (d.brought ≡ brought) ] }
    {
        if !self.fit() {
            return Err(Declined {
                reason: Refusal::Price,
                brought,
            });
        }
        let Weights { row, entry, column } = self;
        Ok((brought, CheckedWeights { row, entry, column }))
    }
}

impl CheckedWeights {
    /// The work of so many rows and entries.
    pub(crate) fn work(self, rows: u32, entries: u32) -> u64
        ensures { result ≡ self.row * rows + self.entry * entries }
    {
        u64::from(self.row) * u64::from(rows) + u64::from(self.entry) * u64::from(entries)
    }

    /// That work, and the cost of so many columns.
    pub(crate) fn price(self, rows: u32, entries: u32, columns: u32) -> u64
        ensures { result ≡ self.row * rows + self.entry * entries + self.column * columns }
    {
        self.work(rows, entries) + u64::from(self.column) * u64::from(columns)
    }
}
