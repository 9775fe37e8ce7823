ghost use Rattle.std.specs.Prelude.{◌≡◌, ℕ, ◌+◌, ◌*◌, ◌/◌, ◌%◌, ◌^◌, ◌<◌, None, ◌≢◌, slice_index, slice_index_or, unwrap_or};
ghost use Rattle.levels.specs.Layouts.{Reaches, end_of};
ghost use Rattle.levels.specs.Planes.{Outside};
ghost use Rattle.table.specs.Codes.{codes as codes_of};
ghost use Rattle.table.specs.Stores.{Stored, placed};

use super::batch::Batch;
use super::plan::Plan;
use super::walk::{WINDOW, Walk};
use levels::Layout;
use pattern::Pattern;

/// Puts the codes of a batch at the places of a word; nothing is written where there are none.
fn put_batch(layout: &Layout, memory: &mut [u64], word: usize, batch: &Batch)
    requires { (Reaches layout.now memory.old) × (word < layout.now.words) }
    ensures here { (k : ℕ) → k < 64 → placed layout.now memory.old (64 * word + k) ≡ 0 → placed layout.now memory.new (64 * word + k) ≡ unwrap_or (slice_index_or batch.now.found k None) 0 % 2 ^ layout.now.bits }
    ensures kept { (k : ℕ) → k < 64 → unwrap_or (slice_index_or batch.now.found k None) 0 ≡ 0 → placed layout.now memory.new (64 * word + k) ≡ placed layout.now memory.old (64 * word + k) }
    ensures others { (q : ℕ) → (q / 64 ≢ word) → q < 64 * layout.now.words → placed layout.now memory.new q ≡ placed layout.now memory.old q }
    ensures outside { Outside layout.now.start (end_of layout.now) memory.old memory.new }
{
    if batch.any() {
        layout.put(memory, word, &batch.codes());
    }
}

impl<P: Pattern> Plan<'_, P> {
    /// Puts the codes of the entries whose columns are in the window from column `first` on at their places.
    fn store_window(&self, memory: &mut [u64], first: u32)
        requires reaches { Reaches self.now.layout memory.old }
        requires before { Stored (P.sparsity self.now.pattern.now) first WINDOW 0 self.now.layout memory.old }
        ensures after { Stored (P.sparsity self.now.pattern.now) (first + WINDOW) WINDOW 0 self.now.layout memory.new }
        ensures outside { Outside self.now.layout.start (end_of self.now.layout) memory.old memory.new }
    {
        let mut window = [0; WINDOW];
        let mut walk = Walk::start(self, &mut window, first);
        for word in 0..self.word_count() {
            put_batch(&self.layout, memory, word, &walk.next_word());
        }
    }

    /// Puts the codes of all entries at their places, which hold 0.
    pub(crate) fn store_codes(&self, memory: &mut [u64])
        requires reaches { Reaches self.now.layout memory.old }
        requires clear { (q : ℕ) → q < 64 * self.now.layout.words → placed self.now.layout memory.old q ≡ 0 }
        ensures codes { (q : ℕ) → q < 64 * self.now.layout.words → placed self.now.layout memory.new q ≡ slice_index (codes_of (P.sparsity self.now.pattern.now)) q % 2 ^ self.now.layout.bits }
        ensures outside { Outside self.now.layout.start (end_of self.now.layout) memory.old memory.new }
    {
        for first in (0..self.pattern.column_count()).step_by(WINDOW) {
            self.store_window(memory, first);
        }
    }
}
