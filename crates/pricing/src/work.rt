ghost use Rattle.std.proofs.Common.{mul-le-mul, mul-le-mul_left, rules};
ghost use Rattle.pattern.proofs.Spans.{sum_between_le, sum_between_grows};
ghost use Rattle.pricing.specs.Meanings.{work_of};
ghost use Rattle.pricing.specs.Works.{Weight, work_price};
ghost use Rattle.refusal.specs.declared.Refusal.TheVariants.{Price as OutOfRange};
ghost use Rattle.std.specs.Prelude.{◌≡◌, Ok, Err};

use super::weights::{CheckedWeights, Weights};
use cost::{Cost, clip};
use pattern::Pattern;
use refusal::Declined;

/// The work of a block over a pattern: a weight for each row and one for each entry.
// As it is: as a count of no columns it would mean `work_price` only by a proof, since a weight times 0 would be added.
pub struct Work<P> {
    pub(crate) pattern: P,
    pub(crate) weights: CheckedWeights,
}

impl<P: Pattern> Work<P> {
    /// The work over a pattern; a weight above 1,000,000 is refused, and the pattern is the caller's again.
    pub fn new(pattern: P, row_weight: u32, entry_weight: u32) -> Result<Work<P>, Declined<P>>
        ensures { elim result [ Ok w ↦ Weight row_weight × Weight entry_weight × (work_of P.sparsity w ≡ work_price row_weight entry_weight (P.sparsity pattern)) × (w.pattern ≡ pattern) | Err d ↦ (d.reason ≡ OutOfRange) × (Weight row_weight × Weight entry_weight → ⊥) × (d.brought ≡ pattern) ] }
    {
        let weights = Weights {
            row: row_weight,
            entry: entry_weight,
            column: 0,
        };
        let (pattern, weights) = weights.checked(pattern)?;
        Ok(Work { pattern, weights })
    }

    /// The pattern that the cost was made over.
    pub fn into_pattern(self) -> P
        ensures { result ≡ self.pattern }
    {
        let Work {
            pattern,
            weights: _,
        } = self;
        pattern
    }
}

impl<P: Pattern> Cost for Work<P> {
    ghost price = { work_of P.Pattern.sparsity };

    ghost put = { λ before _ _ _ after. after ≡ before };

    ghost lawful = { Prim.search (rules, mul-le-mul, mul-le-mul_left, sum_between_le, sum_between_grows) };

    fn row_count(&self) -> u32 {
        self.pattern.row_count()
    }

    fn figure(&mut self, _block: u32, from: u32, to: u32) -> u64 {
        let (from, to) = clip(self.pattern.row_count(), from, to);
        let entries = self.pattern.entries_between(from, to);
        self.weights.work(to - from, entries)
    }
}
