ghost use Rattle.table.specs.Told.{SomeTable};

/// A table that was opened: the pattern that it was compared with, and the memory that holds it.
pub struct Opened<P> {
    pub(crate) pattern: P,
    pub(crate) words: Vec<u64>,
    ghost table: { SomeTable words.items },
}
