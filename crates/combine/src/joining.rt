//! The two ways in which the figures of two costs are joined.
ghost use Rattle.std.specs.Prelude.{◌≡◌, ℕ, max, ◌≤◌};
ghost use Rattle.std.proofs.Common.{rules};
ghost use Rattle.combine.specs.Combined.{added};
ghost use Rattle.cost.specs.Price.{greatest_figure};

use super::figures::capped;

/// How two figures become one.
pub trait Join {
    /// The number that two numbers become.
    ghost joined: { ℕ → ℕ → ℕ };

    /// Two figures, joined.
    fn join(first: u64, second: u64) -> u64
        ensures { result ≡ joined first second };

    /// Figures within the limit have a figure within it.
    ghost small: { (m n : ℕ) → m ≤ greatest_figure → n ≤ greatest_figure → joined m n ≤ greatest_figure };

    /// Greater figures never have the smaller one.
    ghost grows: { (m n m' n' : ℕ) → m ≤ m' → n ≤ n' → joined m n ≤ joined m' n' };
}

/// Figures are added, and stop at 2^60.
pub struct Added;

impl Join for Added {
    ghost joined = { added };

    ghost small = { Prim.search rules };

    ghost grows = { Prim.search rules };

    fn join(first: u64, second: u64) -> u64 {
        capped(u128::from(first) + u128::from(second))
    }
}

/// The larger figure counts.
pub struct Larger;

impl Join for Larger {
    ghost joined = { max };

    ghost small = { Prim.search rules };

    ghost grows = { Prim.search rules };

    fn join(first: u64, second: u64) -> u64 {
        first.max(second)
    }
}
