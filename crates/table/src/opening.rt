ghost use Rattle.std.specs.Prelude.{◌≡◌, Ok, Err};
ghost use Rattle.refusal.specs.declared.Refusal.TheVariants.{Table};
ghost use Rattle.table.specs.Openings.{pattern_of};
ghost use Rattle.table.specs.Words.{IsTable};

use super::checking::check_table;
use super::opened::Opened;
use pattern::Pattern;
use refusal::Declined;

impl<P: Pattern> Opened<P> {
    /// Opens a table over a pattern: exactly where the memory has this pattern's table at its front. Otherwise both are the
    /// caller's again.
    pub fn open(pattern: P, words: Vec<u64>) -> Result<Opened<P>, Declined<(P, Vec<u64>)>>
        ensures { elim result [ Ok o ↦ IsTable (P.sparsity pattern) words.items × (pattern_of o ≡ pattern) × (o.words ≡ words) | Err d ↦ (d.reason ≡ Table) × (IsTable (P.sparsity pattern) words.items → ⊥) × (d.brought ≡ (pattern, words)) ] }
    {
        // As it is: both arms move the pattern and the memory, which one closure of a method could not.
        match check_table(&pattern, words.as_slice()) {
            Ok(()) => Ok(Opened { pattern, words }),
            Err(reason) => Err(Declined {
                reason,
                brought: (pattern, words),
            }),
        }
    }

    /// The pattern and the memory.
    pub fn into_parts(self) -> (P, Vec<u64>)
        ensures { result ≡ (self.pattern, self.words) }
    {
        let Opened { pattern, words } = self;
        (pattern, words)
    }
}
