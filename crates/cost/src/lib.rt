//! What blocks of rows cost: the interface that every cost meets, and its law.
#![tactic(auto)]

ghost use Rattle.std.specs.Prelude.{ℕ, min, ◌≡◌};
ghost use Rattle.cost.specs.Price.{Lawful, Price, asked};

/// A cost, by the questions that can be put to it. A block is a number and a run of rows, from its first row up to,
/// not including, its last boundary. No question changes what a cost means; one may use memory of the cost's own.
pub trait Cost {
    /// How many rows there are, and the figure of each block over each run of rows.
    ghost price: { Self → Price };

    /// What the question for a block number, a first row and a last boundary may do to a cost: before, and after.
    /// An implementation may leave this free.
    ghost put: { Self → ℕ → ℕ → ℕ → Self → Type 0 } = { λ _ _ _ _ _. Unit {0} };

    /// How many rows there are.
    fn row_count(&self) -> u32
        ensures { result ≡ (price self.now).rows };

    /// The figure of a block over the rows from `from` up to, not including, `to`: `to` counts at most as the number of
    /// rows, and then `from` at most as `to`.
    fn figure(&mut self, block: u32, from: u32, to: u32) -> u64
        ensures value { result ≡ asked (price self.old) block from to }
        ensures same { price self.new ≡ price self.old }
        ensures puts { put self.old block from to self.new };

    /// The rows and the figures are within their limits, and rows inside other rows never cost more.
    ghost lawful: { (x : Self) → Lawful (price x) };
}

/// The rows that a question is about, of so many: the last boundary is clipped to the rows, then the first row to that.
pub fn clip(rows: u32, from: u32, to: u32) -> (u32, u32)
    ensures { result ≡ (min from (min to rows), min to rows) }
{
    let to = to.min(rows);
    (from.min(to), to)
}
