ghost use Rattle.std.specs.Prelude.{◌≡◌, ℕ};
ghost use Rattle.pricing.specs.Counts.{Counts, LawfulCounts, Run};

/// What is counted in blocks of rows. No question changes what counts; one may use memory of its own.
pub trait Count {
    /// How many rows there are, and how many entries and columns count in each block.
    ghost counts: { Self → Counts };

    /// What stays over a question: before, and after.
    ghost kept: { Self → Self → Type 0 };

    /// How many rows there are.
    fn rows(&self) -> u32
        ensures { result ≡ (counts self.now).rows };

    /// How many entries count from row `from` up to, not including, `to`.
    fn entries(&self, from: u32, to: u32) -> u32
        ensures { Run (counts self.now) from to → result ≡ (counts self.now).entries from to };

    // As it is: block, from and to are the numbers of a question to a cost, an interface that strangers implement.
    /// How many columns count for a block over the rows from `from` up to, not including, `to`.
    fn columns(&mut self, block: u32, from: u32, to: u32) -> u32
        ensures value { Run (counts self.old) from to → result ≡ (counts self.old).columns block from to }
        ensures same { counts self.new ≡ counts self.old }
        ensures keeps { kept self.old self.new };

    /// The counts are within their limits, and rows inside other rows never count for more.
    ghost lawful: { (x : Self) → LawfulCounts (counts x) };
}
