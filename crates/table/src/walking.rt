ghost use Rattle.std.specs.Prelude.{◌≡◌, ℕ, ◌+◌, ◌-◌, ◌^◌, ◌<◌, min, length, Some, None, ◌≢◌, slice_index};
ghost use Rattle.table.specs.Grounds.{SameGround};
ghost use Rattle.table.specs.Walks.{Batched, position, shown};

use super::batch::Batch;
use super::cursor::Cursor;
use super::plan::Plan;
use super::walk::Walk;
use pattern::Pattern;
use std::mem;

/// The code that stands for a row.
fn code_of(row: u32) -> u32
    requires { row < 2 ^ 31 }
    ensures { result ≡ row + 1 }
{
    row + 1
}

/// Where a column stands in a window of `width` columns from `first` on.
fn window_place(first: u32, width: usize, column: u32) -> Option<usize>
    ensures { elim result [ Some d ↦ (column ≡ first + d) × (d < width) | None ↦ ((d : ℕ) → d < width → column ≢ first + d) ] }
{
    let place = column.checked_sub(first)? as usize;
    if place < width { Some(place) } else { None }
}

impl<'a, 'w, P: Pattern> Walk<'a, 'w, P> {
    /// From the first entry on, with a window of columns from `first` on that has no codes yet.
    pub(crate) fn start(plan: &Plan<'a, P>, window: &'w mut [u32], first: u32) -> Walk<'a, 'w, P>
        requires { (d : ℕ) → d < length window.old → slice_index window.old d ≡ 0 }
        ensures same { (result.pattern ≡ plan.now.pattern) × (result.first ≡ first) × (length result.window.now ≡ length window.old) }
        ensures all { result.left ≡ plan.now.entries }
    {
        Walk {
            pattern: plan.pattern,
            cursor: Cursor::at(plan.pattern, 0),
            left: plan.entries,
            first,
            window,
        }
    }
}

impl<P: Pattern> Walk<'_, '_, P> {
    /// Goes on to a row that has an entry left.
    // As it is: what a step leaves alone is said of two moments, here and below, so no type can hold it.
    fn skip_empty_rows(&mut self)
        requires { 0 < self.old.left }
        ensures same { SameGround self.old self.new }
        ensures still { self.new.left ≡ self.old.left }
        ensures more { self.new.cursor.place < self.new.cursor.size }
    {
        // As it is: it goes on from where the walk stands and stops at a row with entries, so no range is gone through.
        while self.cursor.place >= self.cursor.size {
            self.cursor = Cursor::at(self.pattern, self.cursor.row + 1);
        }
    }

    /// The code of the entry at the cursor, if its column is in the window; the walk goes on by one place.
    fn next_code(&mut self) -> Option<u32>
        requires { self.old.cursor.place < self.old.cursor.size }
        ensures same { SameGround self.old self.new }
        ensures moved { self.new.left + 1 ≡ self.old.left }
        ensures value { let s = P.sparsity self.old.pattern.now in result ≡ shown s self.old.first (length self.old.window.now) (position s self.old.cursor) }
    {
        let Cursor { row, place, .. } = self.cursor;
        let column = self.pattern.column(row, place);
        let window = &mut *self.window;
        self.cursor.place += 1;
        self.left -= 1;
        let place = window_place(self.first, window.len(), column)?;
        Some(mem::replace(&mut window[place], code_of(row)))
    }

    /// The next 64 entries, or as many as are left.
    pub(crate) fn next_word(&mut self) -> Batch
        ensures same { SameGround self.old self.new }
        ensures moved { self.new.left ≡ self.old.left - 64 }
        ensures batch { let s = P.sparsity self.old.pattern.now in Batched s self.old.first (length self.old.window.now) (position s self.old.cursor) (min self.old.left 64) result }
    {
        let mut batch = Batch::empty();
        for place in 0..self.left.min(64) as usize {
            self.skip_empty_rows();
            batch.found[place] = self.next_code();
        }
        batch
    }
}
