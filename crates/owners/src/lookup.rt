ghost use Rattle.owners.specs.Owned.{owner_of};
ghost use Rattle.owners.specs.Lists.{list_of};
ghost use Rattle.std.specs.Prelude.{◌≡◌, length};

use super::owners::Owners;

impl Owners {
    /// The owners that these bytes say, column by column.
    pub fn new(bytes: Vec<u8>) -> Owners
        ensures { list_of result ≡ bytes.items }
    {
        Owners { bytes }
    }

    /// For how many columns an owner is said.
    pub fn column_count(&self) -> usize
        ensures { result ≡ length (list_of self.now) }
    {
        self.bytes.len()
    }

    /// The owner of a column; none where its byte is 255, or where there is no byte for it.
    pub fn owner(&self, column: u32) -> Option<u8>
        ensures { result ≡ owner_of (list_of self.now) column }
    {
        self.bytes
            .get(column as usize)
            .copied()
            .filter(|owner| *owner != 255)
    }

    /// The bytes that were brought.
    pub fn into_bytes(self) -> Vec<u8>
        ensures { result ≡ self.bytes }
    {
        let Owners { bytes } = self;
        bytes
    }
}
