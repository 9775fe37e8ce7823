ghost use Rattle.std.specs.Prelude.{◌≡◌, ℕ, ◌+◌, ◌*◌, ◌/◌, ◌^◌, ◌<◌, ◌≤◌, [], ◌∷◌, length};
ghost use Rattle.levels.specs.Numbers.{digits};
ghost use Rattle.pattern.specs.Sparsity.{row_count};
ghost use Rattle.table.specs.Words.{total_entries, table_words};

use super::plan::Plan;
use levels::Layout;
use pattern::Pattern;

/// Where the codes stand in the table of so many rows and entries: after the sizes and the row starts.
pub(crate) fn layout_for(rows: u32, entries: u32) -> Layout
    requires { rows < 2 ^ 31 }
    ensures made { (result.start ≡ 4 + rows) × (result.count ≡ entries) × (result.words ≡ (entries + 63) / 64) × (result.bits ≡ digits rows) }
    ensures hold { rows < 2 ^ result.bits }
    ensures least { (h : ℕ) → rows < 2 ^ h → result.bits ≤ h }
{
    Layout::new(4 + rows, entries, rows)
}

impl<'a, P: Pattern> Plan<'a, P> {
    /// The plan of a pattern's table.
    pub(crate) fn of(pattern: &'a P) -> Plan<'a, P>
        ensures same { result.pattern.now ≡ pattern.now }
        ensures least { (row_count (P.sparsity pattern.now) < 2 ^ result.layout.bits) × ((h : ℕ) → row_count (P.sparsity pattern.now) < 2 ^ h → result.layout.bits ≤ h) }
    {
        let rows = pattern.row_count();
        let entries = pattern.entries_between(0, rows);
        Plan {
            pattern,
            entries,
            layout: layout_for(rows, entries),
        }
    }
}

impl<P: Pattern> Plan<'_, P> {
    /// The first three words: how many rows, columns and entries there are.
    pub(crate) fn sizes(&self) -> [u64; 3]
        ensures { let s = P.sparsity self.now.pattern.now in result ≡ row_count s ∷ s.column_count ∷ total_entries s ∷ [] }
    {
        [
            u64::from(self.pattern.row_count()),
            u64::from(self.pattern.column_count()),
            u64::from(self.entries),
        ]
    }

    /// How many words the table has.
    pub(crate) fn size(&self) -> usize
        ensures words { result ≡ length (table_words (P.sparsity self.now.pattern.now)) }
        ensures value { let s = P.sparsity self.now.pattern.now in result ≡ 3 + (row_count s + 1) + self.now.layout.bits * (2 * ((total_entries s + 63) / 64) + 2) }
    {
        self.layout.end()
    }

    /// How many words have 64 entries each, or what is left of them.
    pub(crate) fn word_count(&self) -> usize
        ensures { result ≡ (total_entries (P.sparsity self.now.pattern.now) + 63) / 64 }
    {
        self.entries.div_ceil(64) as usize
    }
}

/// How many words the table of a pattern has.
pub fn table_size<P: Pattern>(pattern: &P) -> usize
    ensures words { result ≡ length (table_words (P.sparsity pattern.now)) }
    ensures value { (h : ℕ) × ((result ≡ 3 + (row_count (P.sparsity pattern.now) + 1) + h * (2 * ((total_entries (P.sparsity pattern.now) + 63) / 64) + 2)) × (row_count (P.sparsity pattern.now) < 2 ^ h) × ((g : ℕ) → row_count (P.sparsity pattern.now) < 2 ^ g → h ≤ g)) }
{
    Plan::of(pattern).size()
}
