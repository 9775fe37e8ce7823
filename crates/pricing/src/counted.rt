ghost use Rattle.cost.specs.Price.{SameFigures};
ghost use Rattle.pattern.specs.Sparsity.{Lawful, Sparsity};
ghost use Rattle.pricing.specs.Columns.{scanned_price};
ghost use Rattle.pricing.specs.Meanings.{Fit};
ghost use Rattle.pricing.specs.Telling.{told_counts_lawful};
ghost use Rattle.pricing.specs.Told.{counted_of, told_counts};
ghost use Rattle.refusal.specs.declared.Refusal.TheVariants.{Price as OutOfRange};
ghost use Rattle.std.specs.Prelude.{◌≡◌, Ok, Err};
ghost use Rattle.table.specs.Openings.{words_of};
ghost use Rattle.table.specs.Words.{IsTable};

use super::counting::Count;
use super::priced::Priced;
use super::weights::Weights;
use cost::Cost;
use refusal::Declined;
use table::Opened;

/// Work and a weight for each distinct column of a block, read from an opened counting table.
pub type Counted<P> = Priced<Opened<P>>;

/// The distinct columns count, as the table tells them.
impl<P> Count for Opened<P> {
    ghost counts = { λ x. told_counts (words_of x) };

    ghost kept = { λ before after. after ≡ before };

    ghost lawful = { λ x. told_counts_lawful (words_of x) x.table };

    fn rows(&self) -> u32 {
        self.row_count()
    }

    fn entries(&self, from: u32, to: u32) -> u32 {
        self.entries_between(from, to)
    }

    fn columns(&mut self, _block: u32, from: u32, to: u32) -> u32 {
        self.distinct(from, to)
    }
}

impl<P> Priced<Opened<P>> {
    /// The cost at these weights; one above 1,000,000 is refused, and the opened table is the caller's again. Over the pattern
    /// whose table was opened the figures are those of the cost that scans.
    pub fn new(opened: Opened<P>, weights: Weights) -> Result<Counted<P>, Declined<Opened<P>>>
        ensures { elim result [ Ok x ↦ Fit weights × ((s : Sparsity) → Lawful s → IsTable s (words_of opened) → SameFigures (scanned_price weights.row weights.entry weights.column s) (counted_of x)) × (x.counted ≡ opened) × (⟦<Counted<P> as Cost>⟧.price x ≡ counted_of x) | Err d ↦ (d.reason ≡ OutOfRange) × (Fit weights → ⊥) × (d.brought ≡ opened) ] }
    {
        let (counted, weights) = weights.checked(opened)?;
        Ok(Priced { counted, weights })
    }

    /// The opened table.
    pub fn into_opened(self) -> Opened<P>
        ensures { result ≡ self.counted }
    {
        self.into_counted()
    }
}
