ghost use Rattle.std.specs.Prelude.{◌≡◌, ◌+◌, ◌-◌, ◌≤◌, min, slice_index};
ghost use Rattle.pattern.specs.Columns.{distinct_columns};
ghost use Rattle.pattern.specs.Sparsity.{Lawful, Sparsity, entries_between};
ghost use Rattle.table.specs.Openings.{words_of};
ghost use Rattle.table.specs.Told.{told_distinct, told_rows, told_start};
ghost use Rattle.table.specs.Words.{IsTable};

use super::opened::Opened;
use super::sizes::layout_for;
use std::ops::Range;

/// The bound below which the codes of first occurrences are, in rows from `from` on.
fn first_codes(from: u32) -> u32
    requires { from ≤ 1000000 }
    ensures { result ≡ from + 1 }
{
    from + 1
}

impl<P> Opened<P> {
    /// How many rows there are.
    pub fn row_count(&self) -> u32
        ensures { result ≡ told_rows (words_of self.now) }
    {
        self.words[0] as u32
    }

    /// How many entries there are.
    fn entry_count(&self) -> u32
        ensures value { result ≡ slice_index (words_of self.now) 2 }
        ensures few { result ≤ 16777216 }
    {
        self.words[2] as u32
    }

    /// How many entries come before a row.
    fn start(&self, row: u32) -> u32
        requires { row ≤ told_rows (words_of self.now) }
        ensures value { result ≡ told_start (words_of self.now) row }
        ensures few { result ≤ 16777216 }
    {
        self.words[3 + row as usize] as u32
    }

    /// Those of the rows from `from` up to, not including, `to` that there are.
    fn clip(&self, from: u32, to: u32) -> Range<u32>
        ensures { (result.start ≡ min from (min to (told_rows (words_of self.now)))) × (result.end ≡ min to (told_rows (words_of self.now))) }
    {
        let end = to.min(self.row_count());
        from.min(end)..end
    }

    /// How many entries the rows from `from` up to, not including, `to` have.
    pub fn entries_between(&self, from: u32, to: u32) -> u32
        ensures told { result ≡ told_start (words_of self.now) (min to (told_rows (words_of self.now))) - told_start (words_of self.now) (min from (min to (told_rows (words_of self.now)))) }
        ensures value { (s : Sparsity) → Lawful s → IsTable s (words_of self.now) → result ≡ entries_between s from to }
    {
        let rows = self.clip(from, to);
        self.start(rows.end).saturating_sub(self.start(rows.start))
    }

    /// How many distinct columns the rows from `from` up to, not including, `to` have.
    pub fn distinct(&self, from: u32, to: u32) -> u32
        ensures told { result ≡ told_distinct (words_of self.now) (min from (min to (told_rows (words_of self.now)))) (min to (told_rows (words_of self.now))) }
        ensures value { (s : Sparsity) → Lawful s → IsTable s (words_of self.now) → result ≡ distinct_columns s from to }
    {
        let rows = self.clip(from, to);
        if rows.is_empty() {
            return 0;
        }
        let layout = layout_for(self.row_count(), self.entry_count());
        let start = self.start(rows.start) as usize;
        let end = self.start(rows.end) as usize;
        layout.count_below(self.words.as_slice(), start, end, first_codes(rows.start)) as u32
    }
}
