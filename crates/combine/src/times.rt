ghost use Rattle.combine.specs.Combined.{Factor};

use super::figures::multiplied;
use cost::{Cost, clip};
use refusal::{Declined, Refusal};

/// A cost so many times.
pub struct Times<A> {
    pub(crate) cost: A,
    pub(crate) factor: u32,
    ghost fit: { Factor factor },
}

impl<A: Cost> Times<A> {
    ghost use Rattle.combine.specs.Combined.{times_price};
    ghost use Rattle.combine.specs.Meanings.{times_of};
    ghost use Rattle.refusal.specs.declared.Refusal.TheVariants.{Price as OutOfRange};
    ghost use Rattle.std.specs.Prelude.{◌≡◌, Ok, Err};

    /// The cost so many times; a factor above 1,000,000 is refused, and the cost is the caller's again.
    pub fn new(cost: A, factor: u32) -> Result<Times<A>, Declined<A>>
        ensures { elim result [ Ok t ↦ Factor factor × (times_of A.Cost.price t ≡ times_price factor (A.Cost.price cost)) × (t.cost ≡ cost) × (t.factor ≡ factor) | Err d ↦ (d.reason ≡ OutOfRange) × (Factor factor → ⊥) × (d.brought ≡ cost) ] }
    {
        if factor > 1_000_000 {
            return Err(Declined {
                reason: Refusal::Price,
                brought: cost,
            });
        }
        Ok(Times { cost, factor })
    }

    /// The cost that this one was made of.
    pub fn into_cost(self) -> A
        ensures { result ≡ self.cost }
    {
        let Times { cost, factor: _ } = self;
        cost
    }
}

/// What the cost asks for a block, so many times, and at most 2^60.
impl<A: Cost> Cost for Times<A> {
    ghost use Rattle.combine.specs.Meanings.{times_of};
    ghost use Rattle.combine.specs.Laws.{times_lawful};
    ghost use Rattle.combine.specs.Questions.{times_put};

    ghost price = { times_of A.Cost.price };

    ghost put = { times_put A.Cost.price A.Cost.put };

    ghost lawful = { λ x. times_lawful x.factor (A.Cost.price x.cost) (A.Cost.lawful x.cost) };

    fn row_count(&self) -> u32 {
        self.cost.row_count()
    }

    fn figure(&mut self, block: u32, from: u32, to: u32) -> u64 {
        let (from, to) = clip(self.row_count(), from, to);
        let figure = self.cost.figure(block, from, to);
        multiplied(self.factor, figure)
    }
}
