/// The owner of each column, one byte a column: the number of a block, or 255 where the column has no owner.
#[derive(Drop)]
pub struct Owners {
    pub(crate) bytes: Vec<u8>,
}
