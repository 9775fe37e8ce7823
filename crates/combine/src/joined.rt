ghost use Rattle.combine.specs.Combined.{greater_price, joined_price, sum_price};
ghost use Rattle.combine.specs.Meanings.{joined_of};
ghost use Rattle.combine.specs.Questions.{joined_put};
ghost use Rattle.refusal.specs.declared.Refusal.TheVariants.{Unequal};
ghost use Rattle.std.specs.Prelude.{◌≡◌, Ok, Err, ◌≢◌};
ghost use Rattle.std.proofs.Common.{rules};

use super::joining::{Added, Join, Larger};
use super::rows::with_equal_rows;
use cost::{Cost, clip};
use refusal::Declined;
use std::marker::PhantomData;

/// Two costs as one, whose figures are joined.
pub struct Joined<J, A, B> {
    pub(crate) first: A,
    pub(crate) second: B,
    pub(crate) joining: PhantomData<J>,
}

/// Two costs added: each block costs what both ask for it together, and at most 2^60.
pub type Sum<A, B> = Joined<Added, A, B>;

/// The greater of two costs: each block costs what the dearer of both asks for it.
pub type Greater<A, B> = Joined<Larger, A, B>;

impl<J: Join, A: Cost, B: Cost> Joined<J, A, B> {
    /// Both costs as one; costs that differ in their number of rows are refused, and are the caller's again.
    pub fn new(first: A, second: B) -> Result<Joined<J, A, B>, Declined<(A, B)>>
        ensures { elim result [ Ok x ↦ ((A.Cost.price first).rows ≡ (B.Cost.price second).rows) × (joined_of J.joined A.Cost.price B.Cost.price x ≡ joined_price J.joined (A.Cost.price first) (B.Cost.price second)) × (x.first ≡ first) × (x.second ≡ second) | Err d ↦ (d.reason ≡ Unequal) × ((A.Cost.price first).rows ≢ (B.Cost.price second).rows) × (d.brought ≡ (first, second)) ] }
    {
        let (first, second) = with_equal_rows(first, second)?;
        Ok(Joined {
            first,
            second,
            joining: PhantomData,
        })
    }

    /// The costs that this one was made of.
    pub fn into_parts(self) -> (A, B)
        ensures { result ≡ (self.first, self.second) }
    {
        let Joined {
            first,
            second,
            joining: _,
        } = self;
        (first, second)
    }
}

/// What both costs ask for a block, joined.
impl<J: Join, A: Cost, B: Cost> Cost for Joined<J, A, B> {
    ghost price = { joined_of J.joined A.Cost.price B.Cost.price };

    ghost put = { joined_put J.joined A.Cost.price B.Cost.price A.Cost.put B.Cost.put };

    ghost lawful = { Prim.search rules };

    fn row_count(&self) -> u32 {
        self.first.row_count().min(self.second.row_count())
    }

    fn figure(&mut self, block: u32, from: u32, to: u32) -> u64 {
        let (from, to) = clip(self.row_count(), from, to);
        let first = self.first.figure(block, from, to);
        let second = self.second.figure(block, from, to);
        J::join(first, second)
    }
}

/// A sum means both figures added, and a greater the larger one.
pub fn joined_law<A: Cost, B: Cost>(sum: &Sum<A, B>, greater: &Greater<A, B>)
    ensures sum { ⟦<Sum<A, B> as Cost>⟧.price sum.now ≡ sum_price (A.Cost.price sum.now.first) (B.Cost.price sum.now.second) }
    ensures greater { ⟦<Greater<A, B> as Cost>⟧.price greater.now ≡ greater_price (A.Cost.price greater.now.first) (B.Cost.price greater.now.second) }
{}
