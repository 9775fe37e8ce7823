ghost use Rattle.std.specs.Prelude.{◌≡◌};
ghost use Rattle.pricing.specs.Growth.{priced_lawful};
ghost use Rattle.pricing.specs.Meanings.{priced_of};

use super::counting::Count;
use super::weights::CheckedWeights;
use cost::{Cost, clip};

/// Work and a weight for each column that is counted in a block.
pub struct Priced<C> {
    pub(crate) counted: C,
    pub(crate) weights: CheckedWeights,
}

impl<C> Priced<C> {
    /// What is counted.
    pub(crate) fn into_counted(self) -> C
        ensures { result ≡ self.counted }
    {
        let Priced {
            counted,
            weights: _,
        } = self;
        counted
    }
}

/// The weights of a block's rows, of its entries and of the columns that count for it, together.
impl<C: Count> Cost for Priced<C> {
    ghost price = { priced_of C.counts };

    ghost put = { λ before _ _ _ after. C.kept before.counted after.counted × (after.weights ≡ before.weights) };

    ghost lawful = { λ x. priced_lawful x.weights.row x.weights.entry x.weights.column x.weights.fit (C.counts x.counted) (C.lawful x.counted) };

    fn row_count(&self) -> u32 {
        self.counted.rows()
    }

    fn figure(&mut self, block: u32, from: u32, to: u32) -> u64 {
        let (from, to) = clip(self.counted.rows(), from, to);
        let entries = self.counted.entries(from, to);
        let columns = self.counted.columns(block, from, to);
        self.weights.price(to - from, entries, columns)
    }
}
