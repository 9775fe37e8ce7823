//! A cost that counts its questions.
ghost use Rattle.std.specs.Prelude.{◌≡◌, ◌+◌, ◌^◌, ◌<◌};
ghost use Rattle.std.proofs.Common.{rules};

use cost::Cost;

/// Another cost, and how many questions were put to it.
pub struct Counting<C> {
    pub cost: C,
    pub questions: u64,
}

impl<C: Cost> Cost for Counting<C> {
    ghost price = { λ x. C.Cost.price x.cost };

    ghost put = { λ before k a b after. C.Cost.put before.cost k a b after.cost × (before.questions < 2 ^ 63 → after.questions ≡ before.questions + 1) };

    ghost lawful = { Prim.search rules };

    fn row_count(&self) -> u32 {
        self.cost.row_count()
    }

    fn figure(&mut self, block: u32, from: u32, to: u32) -> u64 {
        self.questions = self.questions.saturating_add(1);
        self.cost.figure(block, from, to)
    }
}
