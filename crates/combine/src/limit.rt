ghost use Rattle.combine.specs.Combined.{limit_price};
ghost use Rattle.combine.specs.Meanings.{limit_of};
ghost use Rattle.combine.specs.Questions.{limit_put};
ghost use Rattle.refusal.specs.declared.Refusal.TheVariants.{Unequal};
ghost use Rattle.std.specs.Prelude.{◌≡◌, Ok, Err, ◌≢◌};
ghost use Rattle.std.proofs.Common.{rules};

use super::figures::{GREATEST_FIGURE, barred};
use super::rows::with_equal_rows;
use cost::{Cost, clip};
use refusal::Declined;

/// A cost that bars each block whose measured figure is the limit or more.
pub struct Limit<M, B> {
    pub(crate) measure: M,
    pub(crate) limit: u64,
    pub(crate) base: B,
}

impl<M: Cost, B: Cost> Limit<M, B> {
    /// The base with a limit on what the measure asks; a limit of 0 bars every block, the empty one too. Costs that
    /// differ in their number of rows are refused, and are the caller's again.
    pub fn new(measure: M, limit: u64, base: B) -> Result<Limit<M, B>, Declined<(M, B)>>
        ensures { elim result [ Ok l ↦ ((M.Cost.price measure).rows ≡ (B.Cost.price base).rows) × (limit_of M.Cost.price B.Cost.price l ≡ limit_price limit (M.Cost.price measure) (B.Cost.price base)) × (l.measure ≡ measure) × (l.limit ≡ limit) × (l.base ≡ base) | Err d ↦ (d.reason ≡ Unequal) × ((M.Cost.price measure).rows ≢ (B.Cost.price base).rows) × (d.brought ≡ (measure, base)) ] }
    {
        let (measure, base) = with_equal_rows(measure, base)?;
        Ok(Limit {
            measure,
            limit,
            base,
        })
    }

    /// The measure and the base that this cost was made of.
    pub fn into_parts(self) -> (M, B)
        ensures { result ≡ (self.measure, self.base) }
    {
        let Limit {
            measure,
            limit: _,
            base,
        } = self;
        (measure, base)
    }
}

/// What the base asks for a block, or 2^60 where what the measure asks is the limit or more.
impl<M: Cost, B: Cost> Cost for Limit<M, B> {
    ghost price = { limit_of M.Cost.price B.Cost.price };

    ghost put = { limit_put M.Cost.price B.Cost.price M.Cost.put B.Cost.put };

    ghost lawful = { Prim.search rules };

    fn row_count(&self) -> u32 {
        self.measure.row_count().min(self.base.row_count())
    }

    fn figure(&mut self, block: u32, from: u32, to: u32) -> u64 {
        let (from, to) = clip(self.row_count(), from, to);
        let measured = self.measure.figure(block, from, to);
        if barred(self.limit, measured) {
            return GREATEST_FIGURE;
        }
        self.base.figure(block, from, to)
    }
}
