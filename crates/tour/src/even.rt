//! The even cut of rows into blocks, and the costliest of several figures.
ghost use Rattle.std.specs.Prelude.{◌≡◌, ℕ, ◌*◌, ◌/◌, ◌<◌, ◌≤◌, length, MatchOption, slice_index};

/// The first row of a block of the even cut: so many of the rows as blocks are before it.
pub(crate) fn boundary(rows: u32, blocks: u32, block: u32) -> u32
    requires { (0 < blocks) × (block ≤ blocks) }
    ensures { result ≡ rows * block / blocks }
{
    (u64::from(rows) * u64::from(block) / u64::from(blocks)) as u32
}

/// The first of the greatest figures, by its place, if there is a figure.
pub fn costliest(figures: &[u64]) -> Option<usize>
    ensures { MatchOption result (length figures.now ≡ 0) (λ i. (i < length figures.now) × ((k : ℕ) → k < length figures.now → slice_index figures.now k ≤ slice_index figures.now i) × ((k : ℕ) → k < i → slice_index figures.now k < slice_index figures.now i)) }
{
    let greatest = figures.iter().max()?;
    figures.iter().position(|figure| figure == greatest)
}
