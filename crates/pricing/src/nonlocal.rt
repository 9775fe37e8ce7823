ghost use Rattle.marks.specs.Meanings.{SamePattern, marked_sparsity};
ghost use Rattle.marks.specs.Nonlocals.{nonlocal_columns};
ghost use Rattle.owners.specs.Lists.{list_of};
ghost use Rattle.pricing.specs.Columns.{nonlocal_price, pattern_counts};
ghost use Rattle.pricing.specs.Growth.{nonlocal_counts_lawful};
ghost use Rattle.pricing.specs.Meanings.{Fit, OneForEach, nonlocal_of};
ghost use Rattle.refusal.specs.declared.Refusal.TheVariants.{Owners as OwnersLength, Price as OutOfRange};
ghost use Rattle.std.specs.Prelude.{◌≡◌, Ok, Err, MatchBool};
ghost use Rattle.stored.specs.Checked.{checked_lawful};
ghost use Rattle.stored.specs.Judged.{sparsity_of};

use super::counting::Count;
use super::priced::Priced;
use super::weights::Weights;
use cost::Cost;
use marks::Marked;
use owners::Owners;
use pattern::Pattern;
use refusal::{Declined, Refusal};
use stored::Stored;

/// A pattern with its marks, and who owns each column; the distinct columns that a block does not own count.
pub struct NonlocalColumns {
    pub(crate) marked: Marked<Stored>,
    pub(crate) owners: Owners,
}

/// Work and a weight for each distinct column of a block that the block does not own.
pub type Nonlocal = Priced<NonlocalColumns>;

impl Count for NonlocalColumns {
    ghost counts = { λ x.
        let s = marked_sparsity sparsity_of x.marked in
        pattern_counts s (λ k a b. nonlocal_columns s (list_of x.owners) k a b) };

    ghost kept = { λ before after. SamePattern before.marked after.marked × (after.owners ≡ before.owners) };

    ghost lawful = { λ x.
        let law = checked_lawful x.marked.pattern in
        nonlocal_counts_lawful (marked_sparsity sparsity_of x.marked) law.height law.entries x.marked.narrow (list_of x.owners) };

    fn rows(&self) -> u32 {
        self.marked.row_count()
    }

    fn entries(&self, from: u32, to: u32) -> u32 {
        self.marked.entries_between(from, to)
    }

    fn columns(&mut self, block: u32, from: u32, to: u32) -> u32 {
        self.marked.nonlocal(&self.owners, block, from, to)
    }
}

/// Whether an owner is said for each column and for no other.
fn one_for_each(owners: &Owners, marked: &Marked<Stored>) -> bool
    ensures { MatchBool result (OneForEach owners.now marked.now) (OneForEach owners.now marked.now → ⊥) }
{
    owners.column_count() == marked.column_count() as usize
}

impl Priced<NonlocalColumns> {
    /// The cost at these weights; one above 1,000,000 is refused, and then owners that are not one for each column. All is
    /// the caller's again.
    pub fn new(
        marked: Marked<Stored>,
        owners: Owners,
        weights: Weights,
    ) -> Result<Nonlocal, Declined<(Marked<Stored>, Owners)>>
        ensures { elim result [ Ok x ↦ Fit weights × OneForEach owners marked × (nonlocal_of x ≡ nonlocal_price weights.row weights.entry weights.column (marked_sparsity sparsity_of marked) (list_of owners)) × (x.counted.marked ≡ marked) × (x.counted.owners ≡ owners) × (⟦<Nonlocal as Cost>⟧.price x ≡ nonlocal_of x) | Err d ↦ ((Fit weights → ⊥) → d.reason ≡ OutOfRange) × (Fit weights → (d.reason ≡ OwnersLength) × (OneForEach owners marked → ⊥)) × (d.brought ≡ (marked, owners)) ] }
    {
        let ((marked, owners), weights) = weights.checked((marked, owners))?;
        if !one_for_each(&owners, &marked) {
            return Err(Declined {
                reason: Refusal::Owners,
                brought: (marked, owners),
            });
        }
        let counted = NonlocalColumns { marked, owners };
        Ok(Priced { counted, weights })
    }

    /// The pattern with its marks, and the owners.
    pub fn into_parts(self) -> (Marked<Stored>, Owners)
        ensures { result ≡ (self.counted.marked, self.counted.owners) }
    {
        let NonlocalColumns { marked, owners } = self.into_counted();
        (marked, owners)
    }
}
