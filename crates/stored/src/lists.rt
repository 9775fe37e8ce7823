ghost use Rattle.pattern.specs.Sparsity.{Ordered};
ghost use Rattle.stored.specs.Csr.{Climbing, Framed, Sized, csr};

/// A pattern as a caller brings it, of which nothing is known: how many columns there are, where each row starts
/// among the columns (and, last, where the columns end), and the columns of all rows one after another.
// As it is: two lists and a width, not rows, are the format that callers bring.
#[derive(Drop)]
pub struct Unchecked {
    pub width: u32,
    pub starts: Vec<u32>,
    pub columns: Vec<u32>,
}

/// A pattern that has passed the check. It ends by `into_unchecked`, and is neither copied nor let go of.
pub struct Stored {
    pub(crate) lists: Unchecked,
    ghost sized: { Sized lists.width lists.starts.items lists.columns.items },
    ghost framed: { Framed lists.starts.items lists.columns.items },
    ghost climbing: { Climbing lists.starts.items },
    ghost ordered: { Ordered (csr lists.width lists.starts.items lists.columns.items) },
}
