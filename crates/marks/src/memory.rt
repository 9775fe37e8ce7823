ghost use Rattle.std.specs.Prelude.{ℕ, ◌<◌, ◌≤◌, vec_len, slice_index};

use std::alloc::AllocError;

/// Memory by which a count tells the columns that it has seen: for each column the number of the count that saw it last.
#[derive(Drop)]
pub struct Marks {
    pub(crate) stamps: Vec<u32>,
    pub(crate) count: u32,
    ghost past: { (c : ℕ) → c < vec_len stamps → slice_index stamps.items c ≤ count },
}

/// A pattern and a mark for each of its columns.
pub struct Marked<P> {
    pub(crate) pattern: P,
    pub(crate) marks: Marks,
    pub(crate) width: u32,
    ghost enough: { width ≤ vec_len marks.stamps },
    ghost narrow: { width ≤ 1000000 },
}

/// A pattern for whose columns there was no memory, with the marks that were brought.
pub struct Unmarked<P> {
    pub error: AllocError,
    pub pattern: P,
    pub marks: Marks,
}
