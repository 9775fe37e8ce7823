ghost use Rattle.std.specs.Prelude.{◌≡◌, ℕ, ◌+◌, ◌*◌, ◌^◌, ◌<◌, ◌≤◌, length, IfSome, None, Ok, Err, MatchBool, ◌≢◌, slice_index, slice_index_or};
ghost use Rattle.pattern.specs.Sparsity.{row_count};
ghost use Rattle.refusal.specs.declared.Refusal.TheVariants.{Table};
ghost use Rattle.table.specs.Checks.{AllFound, BatchFound, FoundAt, Standing, WindowFound};
ghost use Rattle.table.specs.Heads.{Sized, Started};
ghost use Rattle.table.specs.Words.{IsTable, table_words};

use super::batch::Batch;
use super::plan::Plan;
use super::starts::Starts;
use super::walk::{WINDOW, Walk};
use levels::Layout;
use pattern::Pattern;
use refusal::Refusal;

/// Whether the code of an entry, if it has one, is found at its place.
fn entry_found(layout: &Layout, words: &[u64], place: usize, code: Option<u32>) -> bool
    requires { (Standing layout.now words.now) × (IfSome code (λ _. place < layout.now.count)) }
    ensures { MatchBool result (IfSome code (FoundAt layout.now words.now place)) (IfSome code (FoundAt layout.now words.now place) → ⊥) }
{
    code.is_none_or(|code| layout.traces(words, place, code))
}

/// Whether the codes of a batch are found at the places of a word.
fn batch_found(layout: &Layout, words: &[u64], word: usize, batch: &Batch) -> bool
    requires standing { (Standing layout.now words.now) × (word < 2 ^ 32) }
    requires within { (k : ℕ) → k < 64 → IfSome (slice_index_or batch.now.found k None) (λ _. 64 * word + k < layout.now.count) }
    ensures { MatchBool result (BatchFound layout.now words.now word batch.now) (BatchFound layout.now words.now word batch.now → ⊥) }
{
    for (k, code) in batch.found.iter().enumerate() {
        if !entry_found(layout, words, 64 * word + k, *code) {
            return false;
        }
    }
    true
}

/// Whether a row starts there.
fn start_is(words: &[u64], row: u32, start: u32) -> bool
    requires { 3 + row < length words.now }
    ensures { MatchBool result (slice_index words.now (3 + row) ≡ start) (slice_index words.now (3 + row) ≢ start) }
{
    words[3 + row as usize] == u64::from(start)
}

impl<P: Pattern> Plan<'_, P> {
    /// Whether the first three words are the sizes.
    fn sizes_match(&self, words: &[u64]) -> bool
        requires { 3 ≤ length words.now }
        ensures { let s = P.sparsity self.now.pattern.now in MatchBool result (Sized s words.now) (Sized s words.now → ⊥) }
    {
        words.starts_with(&self.sizes())
    }

    /// Whether the row starts come after them.
    // As it is: filling has the same loop over `Starts`, and writes what this compares.
    fn starts_match(&self, words: &[u64]) -> bool
        requires { 4 + row_count (P.sparsity self.now.pattern.now) ≤ length words.now }
        ensures { let s = P.sparsity self.now.pattern.now in MatchBool result (Started s words.now) (Started s words.now → ⊥) }
    {
        for (row, start) in Starts::of(self.pattern) {
            if !start_is(words, row, start) {
                return false;
            }
        }
        true
    }

    /// Whether the words before the levels are those of the table.
    fn front_matches(&self, words: &[u64]) -> bool
        requires { 4 + row_count (P.sparsity self.now.pattern.now) ≤ length words.now }
        ensures { let s = P.sparsity self.now.pattern.now in MatchBool result (Sized s words.now × Started s words.now) (Sized s words.now × Started s words.now → ⊥) }
    {
        self.sizes_match(words) && self.starts_match(words)
    }

    /// Whether the codes of the entries whose columns are in the window from column `first` on are found.
    // As it is: filling has the same loop over a `Walk`, and stores what this looks up.
    fn window_found(&self, words: &[u64], first: u32) -> bool
        requires { Standing self.now.layout words.now }
        ensures { let s = P.sparsity self.now.pattern.now in MatchBool result (WindowFound s first WINDOW self.now.layout words.now) (AllFound s self.now.layout words.now → ⊥) }
    {
        let mut window = [0; WINDOW];
        let mut walk = Walk::start(self, &mut window, first);
        for word in 0..self.word_count() {
            if !batch_found(&self.layout, words, word, &walk.next_word()) {
                return false;
            }
        }
        true
    }

    /// Whether the codes of all entries are found.
    fn codes_found(&self, words: &[u64]) -> bool
        requires { Standing self.now.layout words.now }
        ensures { let s = P.sparsity self.now.pattern.now in MatchBool result (AllFound s self.now.layout words.now) (AllFound s self.now.layout words.now → ⊥) }
    {
        for first in (0..self.pattern.column_count()).step_by(WINDOW) {
            if !self.window_found(words, first) {
                return false;
            }
        }
        true
    }

    /// Whether the levels agree with themselves, and have the codes.
    fn levels_match(&self, words: &[u64]) -> bool
        ensures { let s = P.sparsity self.now.pattern.now in MatchBool result (Standing self.now.layout words.now × AllFound s self.now.layout words.now) (Standing self.now.layout words.now × AllFound s self.now.layout words.now → ⊥) }
    {
        self.layout.stands(words) && self.codes_found(words)
    }

    /// Whether memory of the table's length is the table.
    fn is_table(&self, words: &[u64]) -> bool
        requires { length words.now ≡ length (table_words (P.sparsity self.now.pattern.now)) }
        ensures { let s = P.sparsity self.now.pattern.now in MatchBool result (words.now ≡ table_words s) (words.now ≢ table_words s) }
    {
        self.front_matches(words) && self.levels_match(words)
    }
}

/// Checks that memory has the table of a pattern at its front. It stops at the first mismatch, and reads nothing that comes
/// after the table.
pub fn check_table<P: Pattern>(pattern: &P, words: &[u64]) -> Result<(), Refusal>
    ensures { elim result [ Ok x ↦ IsTable (P.sparsity pattern.now) words.now | Err reason ↦ (reason ≡ Table) × (IsTable (P.sparsity pattern.now) words.now → ⊥) ] }
{
    let plan = Plan::of(pattern);
    let Some(table) = words.get(..plan.size()) else {
        return Err(Refusal::Table);
    };
    if plan.is_table(table) {
        Ok(())
    } else {
        Err(Refusal::Table)
    }
}
