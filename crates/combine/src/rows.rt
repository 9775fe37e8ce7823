ghost use Rattle.refusal.specs.declared.Refusal.TheVariants.{Unequal};
ghost use Rattle.std.specs.Prelude.{◌≡◌, Ok, Err, ◌≢◌};

use cost::Cost;
use refusal::{Declined, Refusal};

/// Two costs with equally many rows; any others are refused, and are the caller's again.
pub(crate) fn with_equal_rows<A: Cost, B: Cost>(
    first: A,
    second: B,
) -> Result<(A, B), Declined<(A, B)>>
    ensures { elim result [ Ok both ↦ ((A.Cost.price first).rows ≡ (B.Cost.price second).rows) × (both ≡ (first, second)) | Err d ↦ (d.reason ≡ Unequal) × ((A.Cost.price first).rows ≢ (B.Cost.price second).rows) × (d.brought ≡ (first, second)) ] }
{
    if first.row_count() != second.row_count() {
        return Err(Declined {
            reason: Refusal::Unequal,
            brought: (first, second),
        });
    }
    Ok((first, second))
}
