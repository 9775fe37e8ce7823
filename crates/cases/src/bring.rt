//! Patterns and costs made for the tests, and let go again.
use grid::Grid;
use marks::{Marked, Marks, Unmarked};
use refusal::{Declined, Refusal};
use std::alloc::{AllocError, Global};
use std::test::Fail;
use stored::{Stored, Unchecked};

/// What the check says of these lists.
pub fn fault(
    heap: Global,
    width: u32,
    starts: &[u32],
    columns: &[u32],
) -> Result<Option<Refusal>, AllocError> {
    Ok(Unchecked::copied(heap, width, starts, columns)?.fault())
}

/// The checked pattern of these lists.
pub fn checked(lists: Unchecked) -> Result<Stored, Fail> {
    lists
        .check()
        .map_err(|declined| Fail::from(declined.reason))
}

/// The sample matrix.
pub fn sample(heap: Global) -> Result<Stored, Fail> {
    let starts = [0, 2, 3, 6, 7];
    let columns = [0, 1, 1, 0, 2, 3, 3];
    checked(Unchecked::copied(heap, 4, &starts, &columns)?)
}

/// A pattern with marks.
pub fn marked(pattern: Stored, marks: Marks) -> Result<Marked<Stored>, Fail> {
    Marked::new(pattern, marks).map_err(|unmarked| {
        let Unmarked {
            error,
            pattern,
            marks,
        } = unmarked;
        drop(pattern.into_unchecked());
        drop(marks);
        Fail::from(error)
    })
}

/// The sample matrix with marks.
pub fn marked_sample(heap: Global) -> Result<Marked<Stored>, Fail> {
    marked(sample(heap)?, Marks::new(heap))
}

/// Lets a pattern and its marks go.
pub fn end_marked(marked: Marked<Stored>) {
    let (pattern, marks) = marked.into_parts();
    drop(pattern.into_unchecked());
    drop(marks);
}

/// What is said of the grid with these sides, or why they are refused.
pub(crate) fn said_of_grid<T, F: FnOnce(&Grid) -> T>(
    width: u32,
    height: u32,
    say: F,
) -> Result<T, Refusal>
    requires { F.IsAlwaysCallable say }
{
    let grid = Grid::new(width, height)?;
    let said = say(&grid);
    let _ = grid.into_sides();
    Ok(said)
}

/// What is said of a cost, or why it was declined; and what was brought to make it.
pub(crate) fn said_of<C, B, T, F: FnOnce(&mut C) -> T, G: FnOnce(C) -> B>(
    made: Result<C, Declined<B>>,
    say: F,
    into_parts: G,
) -> (Result<T, Refusal>, B)
    requires say { F.IsAlwaysCallable say }
    requires into_parts { G.IsAlwaysCallable into_parts }
{
    match made {
        Ok(mut cost) => {
            let said = say(&mut cost);
            (Ok(said), into_parts(cost))
        }
        Err(Declined { reason, brought }) => (Err(reason), brought),
    }
}

/// Lets go what was brought to a call that declined it, as a failure.
pub(crate) fn refused<B, F: FnOnce(B)>(declined: Declined<B>, end: F) -> Fail
    requires { F.IsAlwaysCallable end }
{
    let Declined { reason, brought } = declined;
    end(brought);
    Fail::from(reason)
}

/// Two values, or the failure to make the second; then the first is let go.
pub(crate) fn beside<A, B, F: FnOnce(A)>(
    first: A,
    second: Result<B, Fail>,
    end: F,
) -> Result<(A, B), Fail>
    requires { F.IsAlwaysCallable end }
{
    match second {
        Ok(second) => Ok((first, second)),
        Err(fail) => {
            end(first);
            Err(fail)
        }
    }
}
