ghost use Rattle.std.specs.Prelude.{◌≡◌, ℕ, ◌<◌, ◌≤◌, true, false, not, ◌||◌, is_ok, vec_len, ◌==◌};
ghost use Rattle.marks.specs.Seen.{covered, seen};

use super::memory::Marks;
use std::alloc::{AllocError, Global};

impl Marks {
    /// No marks yet. Nothing is allocated.
    pub fn new(heap: Global) -> Marks
        ensures { covered result ≡ 0 }
    {
        Marks {
            stamps: Vec::new(heap),
            count: 0,
        }
    }

    /// Sees to marks for so many columns. Where there are as many, nothing is allocated.
    pub(crate) fn cover(&mut self, columns: u32) -> Result<(), AllocError>
        ensures made { is_ok result ≡ true → columns ≤ covered self.new }
        ensures succeeds { columns ≤ covered self.old → is_ok result ≡ true }
        ensures refused { is_ok result ≡ false → self.new.stamps.items ≡ self.old.stamps.items }
        ensures same { self.new.count ≡ self.old.count }
    {
        if self.stamps.len() >= columns as usize {
            return Ok(());
        }
        self.stamps.resize(columns as usize, 0)
    }

    /// Begins another count, which has seen no column.
    // As it is: that there are as many marks afterwards is said of two moments, here and below, so no type can hold it.
    pub(crate) fn begin(&mut self)
        ensures none { (c : ℕ) → c < covered self.new → seen self.new c ≡ false }
        ensures same { covered self.new ≡ covered self.old }
    {
        if self.count == u32::MAX {
            self.forget();
        }
        self.count += 1;
    }

    /// Forgets all counts, so that their numbers can be used again.
    fn forget(&mut self)
        ensures zero { self.new.count ≡ 0 }
        ensures same { covered self.new ≡ covered self.old }
    {
        self.stamps.fill(0);
        self.count = 0;
    }

    /// Marks a column as seen, and says whether the present count had not seen it.
    pub(crate) fn first(&mut self, column: u32) -> bool
        requires { column < covered self.old }
        ensures value { result ≡ not (seen self.old column) }
        ensures after { (c : ℕ) → seen self.new c ≡ (seen self.old c || column == c) }
        ensures same { covered self.new ≡ covered self.old }
    {
        let at = column as usize;
        let count = self.count;
        if self.stamps[at] == count {
            return false;
        }
        self.stamps[at] = count;
        true
    }
}
