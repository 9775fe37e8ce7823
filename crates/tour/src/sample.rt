//! The sample matrix, made and let go again.
ghost use Rattle.std.specs.Prelude.{◌≡◌};

use anyhow::anyhow;
use marks::{Marked, Marks, Unmarked};
use pricing::{Scanned, Weights};
use refusal::{Declined, Refusal};
use std::alloc::{AllocError, Global};
use stored::{Stored, Unchecked};

pub const WEIGHTS: Weights = Weights {
    row: 1,
    entry: 1,
    column: 2,
};

/// The lists of the sample matrix.
pub fn unchecked(heap: Global) -> Result<Unchecked, AllocError> {
    Unchecked::copied(heap, 4, &[0, 2, 3, 6, 7], &[0, 1, 1, 0, 2, 3, 3])
}

/// The sample matrix, checked.
pub fn sample(heap: Global) -> anyhow::Result<Stored> {
    let checked = unchecked(heap)?.check();
    checked.map_err(|_| anyhow!("the sample matrix was refused"))
}

/// The sample matrix with marks.
pub fn marked(heap: Global) -> anyhow::Result<Marked<Stored>> {
    Marked::new(sample(heap)?, Marks::new(heap)).map_err(|unmarked| {
        let Unmarked {
            error,
            pattern,
            marks,
        } = unmarked;
        drop(pattern.into_unchecked());
        drop(marks);
        anyhow::Error::from(error)
    })
}

/// Lets a pattern and its marks go.
pub fn end_marked(marked: Marked<Stored>) {
    let (pattern, marks) = marked.into_parts();
    drop(pattern.into_unchecked());
    drop(marks);
}

/// The scanned cost of the sample matrix.
pub fn scanned(heap: Global) -> anyhow::Result<Scanned<Stored>> {
    let made = Scanned::new(marked(heap)?, WEIGHTS);
    made.map_err(|declined| {
        let _ = refused(declined, end_marked);
        anyhow!("the weights were refused")
    })
}

/// Lets the scanned cost go.
pub fn end_scanned(scanned: Scanned<Stored>) {
    end_marked(scanned.into_marked());
}

/// Why a call was declined; what was brought to it is ended.
pub(crate) fn refused<B, F: FnOnce(B)>(declined: Declined<B>, end: F) -> Refusal
    requires { F.IsAlwaysCallable end }
    ensures { result ≡ declined.reason }
{
    let Declined { reason, brought } = declined;
    end(brought);
    reason
}

/// Two values, or why there is no second; then the first is ended.
pub(crate) fn beside<A, B, F: FnOnce(A)>(
    first: A,
    second: anyhow::Result<B>,
    end: F,
) -> anyhow::Result<(A, B)>
    requires { F.IsAlwaysCallable end }
{
    match second {
        Ok(second) => Ok((first, second)),
        Err(error) => {
            end(first);
            Err(error)
        }
    }
}
