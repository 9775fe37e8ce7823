ghost use Rattle.marks.specs.Meanings.{SamePattern, Square, marked_sparsity};
ghost use Rattle.pattern.specs.Columns.{columns_and_rows};
ghost use Rattle.pricing.specs.Columns.{footprint_price, pattern_counts};
ghost use Rattle.pricing.specs.Growth.{footprint_counts_lawful};
ghost use Rattle.pricing.specs.Meanings.{Fit, footprint_of};
ghost use Rattle.refusal.specs.declared.Refusal.TheVariants.{Price as OutOfRange};
ghost use Rattle.std.specs.Prelude.{◌≡◌, Ok, Err};

use super::counting::Count;
use super::priced::Priced;
use super::weights::Weights;
use cost::Cost;
use marks::Marked;
use pattern::Pattern;
use refusal::{Declined, Refusal};

/// A pattern with its marks, of which the columns and the rows of a block count, each number once.
pub struct ColumnsAndRows<P> {
    pub(crate) marked: Marked<P>,
}

/// Work and a weight for each number that is a column of a block or one of its rows, from any square pattern.
pub type Footprint<P> = Priced<ColumnsAndRows<P>>;

impl<P: Pattern> Count for ColumnsAndRows<P> {
    ghost counts = { λ x.
        let s = marked_sparsity P.sparsity x.marked in
        pattern_counts s (λ k a b. columns_and_rows s a b) };

    ghost kept = { λ before after. SamePattern before.marked after.marked };

    ghost lawful = { λ x.
        let law = P.Pattern.lawful x.marked.pattern in
        footprint_counts_lawful (marked_sparsity P.sparsity x.marked) law.height law.entries x.marked.narrow };

    fn rows(&self) -> u32 {
        self.marked.row_count()
    }

    fn entries(&self, from: u32, to: u32) -> u32 {
        self.marked.entries_between(from, to)
    }

    fn columns(&mut self, _block: u32, from: u32, to: u32) -> u32 {
        self.marked.union(from, to)
    }
}

impl<P: Pattern> Priced<ColumnsAndRows<P>> {
    /// The cost at these weights; one above 1,000,000 and a pattern that is not square are refused, and the pattern with
    /// its marks is the caller's again.
    pub fn new(marked: Marked<P>, weights: Weights) -> Result<Footprint<P>, Declined<Marked<P>>>
        ensures { elim result [ Ok x ↦ Fit weights × Square (marked_sparsity P.sparsity marked) × (footprint_of P.sparsity x ≡ footprint_price weights.row weights.entry weights.column (marked_sparsity P.sparsity marked)) × (x.counted.marked ≡ marked) × (⟦<Footprint<P> as Cost>⟧.price x ≡ footprint_of P.sparsity x) | Err d ↦ (d.reason ≡ OutOfRange) × (Fit weights × Square (marked_sparsity P.sparsity marked) → ⊥) × (d.brought ≡ marked) ] }
    {
        let (marked, weights) = weights.checked(marked)?;
        if !marked.is_square() {
            return Err(Declined {
                reason: Refusal::Price,
                brought: marked,
            });
        }
        let counted = ColumnsAndRows { marked };
        Ok(Priced { counted, weights })
    }

    /// The pattern with its marks.
    pub fn into_marked(self) -> Marked<P>
        ensures { result ≡ self.counted.marked }
    {
        let ColumnsAndRows { marked } = self.into_counted();
        marked
    }
}
