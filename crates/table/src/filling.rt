ghost use Rattle.std.specs.Prelude.{◌≡◌, ◌+◌, ◌<◌, ◌≤◌, ◌++◌, length, drop, Ok, Err};
ghost use Rattle.levels.specs.Planes.{Outside};
ghost use Rattle.pattern.specs.Sparsity.{row_count};
ghost use Rattle.refusal.specs.declared.Refusal.TheVariants.{Table};
ghost use Rattle.table.specs.Heads.{Sized, Started};
ghost use Rattle.table.specs.Words.{table_words};

use super::plan::Plan;
use super::starts::Starts;
use pattern::Pattern;
use refusal::Refusal;

impl<P: Pattern> Plan<'_, P> {
    /// Writes the sizes.
    fn write_sizes(&self, memory: &mut [u64])
        requires { 3 ≤ length memory.old }
        ensures { Sized (P.sparsity self.now.pattern.now) memory.new }
    {
        memory[..3].copy_from_slice(&self.sizes());
    }

    /// Writes the row starts after the sizes.
    fn write_starts(&self, memory: &mut [u64])
        requires { 4 + row_count (P.sparsity self.now.pattern.now) ≤ length memory.old }
        ensures starts { Started (P.sparsity self.now.pattern.now) memory.new }
        ensures outside { Outside 3 (4 + row_count (P.sparsity self.now.pattern.now)) memory.old memory.new }
    {
        for (row, start) in Starts::of(self.pattern) {
            memory[3 + row as usize] = u64::from(start);
        }
    }

    /// Writes the table into memory of its length.
    fn write_table(&self, memory: &mut [u64])
        requires { length memory.old ≡ length (table_words (P.sparsity self.now.pattern.now)) }
        ensures { memory.new ≡ table_words (P.sparsity self.now.pattern.now) }
    {
        self.write_sizes(memory);
        self.write_starts(memory);
        self.layout.clear(memory);
        self.store_codes(memory);
        self.layout.arrange(memory);
    }
}

/// Writes the table of a pattern at the front of memory, where there is room for it. What comes after stays as it was.
pub fn fill<P: Pattern>(pattern: &P, memory: &mut [u64]) -> Result<(), Refusal>
    ensures { elim result [ Ok x ↦ (length (table_words (P.sparsity pattern.now)) ≤ length memory.old) × (memory.new ≡ table_words (P.sparsity pattern.now) ++ drop (length (table_words (P.sparsity pattern.now))) memory.old) | Err reason ↦ (reason ≡ Table) × (length memory.old < length (table_words (P.sparsity pattern.now))) × (memory.new ≡ memory.old) ] }
{
    let plan = Plan::of(pattern);
    let need = plan.size();
    if memory.len() < need {
        return Err(Refusal::Table);
    }
    plan.write_table(&mut memory[..need]);
    Ok(())
}
