ghost use Rattle.std.specs.Prelude.{◌≡◌, ◌*◌, ◌<◌, ◌≤◌, length, Ok, Err, MatchBool, slice_index_or};
ghost use Rattle.grid.specs.Grids.{sparsity_of};
ghost use Rattle.grid.specs.Lattice.{Adjacent, Sides, lattice_sparsity, neighbours};
ghost use Rattle.pattern.specs.Sparsity.{entries_between};
ghost use Rattle.refusal.specs.declared.Refusal.TheVariants.{Shape};
ghost use Rattle.grid.specs.Rows.{lawful_lattice};

use super::Grid;
use pattern::Pattern;
use refusal::Refusal;

/// Whether a grid can have these sides: neither is 0, and there are at most 1,000,000 points.
fn sides_fit(width: u32, height: u32) -> bool
    ensures { MatchBool result (Sides width height) (Sides width height → ⊥) }
{
    width > 0 && height > 0 && u64::from(width) * u64::from(height) <= 1_000_000
}

impl Grid {
    /// The grid with these sides; refused where a side is 0 or there are above 1,000,000 points.
    pub fn new(width: u32, height: u32) -> Result<Grid, Refusal>
        ensures { elim result [ Ok g ↦ Sides width height × (sparsity_of g ≡ lattice_sparsity width height) × Adjacent width height (sparsity_of g) | Err why ↦ (why ≡ Shape) × (Sides width height → ⊥) ] }
    {
        if !sides_fit(width, height) {
            return Err(Refusal::Shape);
        }
        Ok(Grid { width, height })
    }

    /// The width and the height that the grid was made with.
    pub fn into_sides(self) -> (u32, u32)
        ensures { result ≡ (self.width, self.height) }
    {
        let Grid { width, height } = self;
        (width, height)
    }

    /// How many points there are.
    fn points(&self) -> u32
        ensures { result ≡ self.now.width * self.now.height }
    {
        self.width * self.height
    }

    /// How many columns the row of a point has.
    fn degree(&self, point: u32) -> u32
        requires { point < self.now.width * self.now.height }
        ensures { result ≡ length (neighbours self.now.width self.now.height point) }
    {
        let x = point % self.width;
        let y = point / self.width;
        1 + u32::from(y > 0)
            + u32::from(x > 0)
            + u32::from(x + 1 < self.width)
            + u32::from(y + 1 < self.height)
    }

    /// The column at a place in the row of a point, and the number of points past the row's end.
    fn neighbour(&self, point: u32, place: u32) -> u32
        requires { point < self.now.width * self.now.height }
        ensures { result ≡ slice_index_or (neighbours self.now.width self.now.height point) place (self.now.width * self.now.height) }
    {
        let x = point % self.width;
        let y = point / self.width;
        let mut rest = place;
        if y > 0 {
            if rest == 0 {
                return point - self.width;
            }
            rest -= 1;
        }
        if x > 0 {
            if rest == 0 {
                return point - 1;
            }
            rest -= 1;
        }
        if rest == 0 {
            return point;
        }
        rest -= 1;
        if x + 1 < self.width {
            if rest == 0 {
                return point + 1;
            }
            rest -= 1;
        }
        if rest == 0 && y + 1 < self.height {
            point + self.width
        } else {
            self.points()
        }
    }

    /// How many entries the rows before `row` have: one for each point itself, one for each that has a point above it, and
    /// so for those to the left, to the right and below.
    #[tactic(auto, using(crate::proofs::Prefixes::entries_before_is))]
    fn entries_before(&self, row: u32) -> u32
        requires { row ≤ self.now.width * self.now.height }
        ensures { result ≡ entries_between (sparsity_of self.now) 0 row }
    {
        let above = row.saturating_sub(self.width);
        let left = row - row.div_ceil(self.width);
        let right = row - row / self.width;
        let below = row.min(self.points() - self.width);
        row + above + left + right + below
    }
}

/// The row of each point, worked out from the sides when it is asked for.
impl Pattern for Grid {
    ghost sparsity = { sparsity_of };

    ghost lawful = { λ g. lawful_lattice g.width g.height g.few };

    #[tactic(auto, using(crate::specs::Rows::length_lattice))]
    fn row_count(&self) -> u32 {
        self.points()
    }

    fn column_count(&self) -> u32 {
        self.points()
    }

    #[tactic(auto, using(crate::specs::Rows::row_is, crate::specs::Rows::row_past))]
    fn entry_count(&self, row: u32) -> u32 {
        if row < self.points() {
            self.degree(row)
        } else {
            0
        }
    }

    #[tactic(auto, using(crate::specs::Rows::row_is, crate::specs::Rows::row_past))]
    fn column(&self, row: u32, place: u32) -> u32 {
        if row < self.points() {
            self.neighbour(row, place)
        } else {
            self.points()
        }
    }

    fn entries_between(&self, from: u32, to: u32) -> u32 {
        let end = to.min(self.points());
        self.entries_before(end) - self.entries_before(from.min(end))
    }
}
