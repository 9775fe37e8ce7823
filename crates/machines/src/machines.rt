ghost use Rattle.std.specs.Prelude.{◌≤◌, length};

/// The weight of each row, and for each machine how long it takes to start and how slow it is.
#[derive(Drop)]
pub struct Machines {
    pub(crate) weights: Vec<u32>,
    // As it is: callers bring starts and slowness as two lists, which may differ in length, and `new` allocates nothing; a
    // list of pairs would ask more of them.
    pub(crate) starts: Vec<u32>,
    pub(crate) slowness: Vec<u8>,
    ghost few: { length weights.items ≤ 1000000 },
}
