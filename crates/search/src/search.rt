// A search for the cut that costs least.
ghost use Rattle.search.specs.Sane.{Counts, Ranges, Shape};

use cost::Cost;

mod calls;

/// A search holds its cost until it is closed. It allocates nothing.
pub struct Search<C: Cost> {
    cost: C,
    blocks: u32,
    ceiling: u64,
    floor: u64,
    figure: u64,
    // As it is: places for the most blocks there can be, since a search allocates nothing.
    standing: Option<[u32; 1025]>,
    advance_trials: u32,
    try_trials: u32,
    questions: u32,
    ghost shape: { Shape blocks ceiling },
    ghost ranges: { Ranges ceiling floor figure advance_trials },
    ghost counts: { Counts advance_trials try_trials questions },
}
