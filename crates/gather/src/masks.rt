ghost use Rattle.std.specs.Prelude.{ℕ, ◌<◌, slice_index};
ghost use Rattle.gather.specs.Gathered.{Steers};

/// A selection of bits, and for each of six steps which of them go down: step `i` moves bits by `2 ^ i` places.
#[derive(Clone, Copy)]
pub struct Masks {
    pub(crate) selected: u64,
    pub(crate) steps: [u64; 6],
    ghost steer: { (i : ℕ) → i < 6 → Steers selected i (slice_index steps i) },
}
