ghost use Rattle.marks.specs.Meanings.{SamePattern, marked_sparsity};
ghost use Rattle.pattern.specs.Columns.{distinct_columns};
ghost use Rattle.pricing.specs.Columns.{pattern_counts, scanned_price};
ghost use Rattle.pricing.specs.Growth.{scanned_counts_lawful};
ghost use Rattle.pricing.specs.Meanings.{Fit, scanned_of};
ghost use Rattle.refusal.specs.declared.Refusal.TheVariants.{Price as OutOfRange};
ghost use Rattle.std.specs.Prelude.{◌≡◌, Ok, Err};

use super::counting::Count;
use super::priced::Priced;
use super::weights::Weights;
use cost::Cost;
use marks::Marked;
use pattern::Pattern;
use refusal::Declined;

/// Work and a weight for each distinct column of a block, read from any pattern.
pub type Scanned<P> = Priced<Marked<P>>;

/// The distinct columns count.
impl<P: Pattern> Count for Marked<P> {
    ghost counts = { λ x.
        let s = marked_sparsity P.sparsity x in
        pattern_counts s (λ k a b. distinct_columns s a b) };

    ghost kept = { SamePattern };

    ghost lawful = { λ x.
        let law = P.Pattern.lawful x.pattern in
        scanned_counts_lawful (marked_sparsity P.sparsity x) law.height law.entries x.narrow };

    fn rows(&self) -> u32 {
        self.row_count()
    }

    fn entries(&self, from: u32, to: u32) -> u32 {
        self.entries_between(from, to)
    }

    fn columns(&mut self, _block: u32, from: u32, to: u32) -> u32 {
        self.distinct(from, to)
    }
}

impl<P: Pattern> Priced<Marked<P>> {
    /// The cost at these weights; one above 1,000,000 is refused, and the pattern with its marks is the caller's again.
    pub fn new(marked: Marked<P>, weights: Weights) -> Result<Scanned<P>, Declined<Marked<P>>>
        ensures { elim result [ Ok x ↦ Fit weights × (scanned_of P.sparsity x ≡ scanned_price weights.row weights.entry weights.column (marked_sparsity P.sparsity marked)) × (x.counted ≡ marked) × (⟦<Scanned<P> as Cost>⟧.price x ≡ scanned_of P.sparsity x) | Err d ↦ (d.reason ≡ OutOfRange) × (Fit weights → ⊥) × (d.brought ≡ marked) ] }
    {
        let (counted, weights) = weights.checked(marked)?;
        Ok(Priced { counted, weights })
    }

    /// The pattern with its marks.
    pub fn into_marked(self) -> Marked<P>
        ensures { result ≡ self.counted }
    {
        self.into_counted()
    }
}
