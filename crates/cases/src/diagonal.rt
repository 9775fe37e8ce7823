//! A pattern of one's own: the diagonal. It keeps the provided count of the entries of a run of rows.
ghost use Rattle.std.specs.Prelude.{◌≡◌, ◌≤◌, MatchOption};
ghost use Rattle.cases.specs.Diagonals.{diagonal as diagonalSparsity};
ghost use Rattle.cases.specs.DiagonalsLemmas as Diagonals;

use pattern::Pattern;

/// A square matrix with entries on its diagonal alone.
#[derive(Drop)]
pub struct Diagonal {
    size: u32,
    ghost few: { size ≤ 1000000 },
}

impl Diagonal {
    /// The diagonal of so many rows, if there are at most 1,000,000.
    pub fn new(size: u32) -> Option<Diagonal>
        ensures { MatchOption result (size ≤ 1000000 → ⊥) (λ d. d.size ≡ size) }
    {
        if size > 1_000_000 {
            return None;
        }
        Some(Diagonal { size })
    }
}

impl Pattern for Diagonal {
    ghost sparsity = { λ d. diagonalSparsity d.size };

    ghost lawful = { λ d. Diagonals.lawful d.size d.few };

    #[tactic(auto, using(crate::specs::DiagonalsLemmas::height_is))]
    fn row_count(&self) -> u32 {
        self.size
    }

    fn column_count(&self) -> u32 {
        self.size
    }

    #[tactic(auto, using(crate::specs::DiagonalsLemmas::row_is, crate::specs::DiagonalsLemmas::row_past))]
    fn entry_count(&self, row: u32) -> u32 {
        u32::from(row < self.size)
    }

    #[tactic(auto, using(crate::specs::DiagonalsLemmas::row_is, crate::specs::DiagonalsLemmas::row_past))]
    fn column(&self, row: u32, place: u32) -> u32 {
        if place < self.entry_count(row) {
            row
        } else {
            self.size
        }
    }
}
