ghost use Rattle.std.specs.Prelude.{◌≡◌, ◌+◌, ◌*◌, ◌≤◌, min, length, sum, MatchOption, slice_index_or};
ghost use Rattle.cost.specs.Price.{greatest_figure};
ghost use Rattle.machines.specs.Meanings.{machines_of};
ghost use Rattle.machines.specs.Times.{machine_price};
ghost use Rattle.std.specs.List.{between};
ghost use Rattle.machines.specs.Growth.{machines_lawful};

use super::machines::Machines;
use cost::{Cost, clip};

/// So many weights, added.
fn total(weights: &[u32]) -> u64
    requires { length weights.now ≤ 1000000 }
    ensures { result ≡ sum weights.now }
{
    weights.iter().map(|&weight| u64::from(weight)).sum()
}

/// How long a machine takes for so much weight, at most 2^60.
fn time(start: u32, slowness: u8, weight: u64) -> u64
    ensures { result ≡ min (start + slowness * weight) greatest_figure }
{
    u64::from(slowness)
        .saturating_mul(weight)
        .saturating_add(u64::from(start))
        .min(1 << 60)
}

impl Machines {
    /// The machines with these weights of rows, if there are at most 1,000,000 rows.
    pub fn new(weights: Vec<u32>, starts: Vec<u32>, slowness: Vec<u8>) -> Option<Machines>
        ensures { MatchOption result (length weights.items ≤ 1000000 → ⊥) (λ m. machines_of m ≡ machine_price weights.items starts.items slowness.items) }
    {
        if weights.len() > 1_000_000 {
            return None;
        }
        Some(Machines {
            weights,
            starts,
            slowness,
        })
    }
}

impl Cost for Machines {
    ghost price = { machines_of };

    ghost put = { λ before _ _ _ after. after ≡ before };

    ghost lawful = { λ m. machines_lawful m.weights.items m.starts.items m.slowness.items m.few };

    fn row_count(&self) -> u32 {
        self.weights.len() as u32
    }

    fn figure(&mut self, block: u32, from: u32, to: u32) -> u64 {
        let weights = self.weights.as_slice();
        let (from, to) = clip(weights.len() as u32, from, to);
        let weight = total(&weights[from as usize..to as usize]);
        let start = self.starts.get(block as usize).copied().unwrap_or(0);
        let slowness = self.slowness.get(block as usize).copied().unwrap_or(0);
        time(start, slowness, weight)
    }
}
