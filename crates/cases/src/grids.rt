//! Grids against rows written out by hand, and the pattern written by a stranger.
use super::bring::said_of_grid;
use super::diagonal::Diagonal;
use grid::Grid;
use pattern::Pattern;
use refusal::Refusal;
use std::alloc::{AllocError, Global};
use std::test::Fail;

/// A pattern's rows one after another, each ended by the number of columns.
fn rows_of<P: Pattern>(heap: Global, pattern: &P) -> Result<Vec<u32>, AllocError> {
    (0..pattern.row_count())
        .flat_map(|row| (0..=pattern.entry_count(row)).map(move |place| pattern.column(row, place)))
        .collect(heap)
}

/// Why a grid with these sides is refused, if it is.
fn sides_fault(width: u32, height: u32) -> Option<Refusal> {
    Grid::new(width, height).map(Grid::into_sides).err()
}

/// The rows of a grid; none where its sides are refused.
fn grid_rows(heap: Global, width: u32, height: u32) -> Result<Vec<u32>, AllocError> {
    said_of_grid(width, height, |grid| rows_of(heap, grid)).unwrap_or_else(|_| Ok(Vec::new(heap)))
}

#[test]
fn small_grids(rt: HostRuntime) -> Result<(), Fail> {
    let heap = rt.alloc();
    assert!(rt; grid_rows(heap, 1, 1)?.as_slice() == [0u32, 1].as_slice());
    assert!(rt; grid_rows(heap, 3, 1)?.as_slice() == [0u32, 1, 3, 0, 1, 2, 3, 1, 2, 3].as_slice());
    assert!(rt; grid_rows(heap, 1, 3)?.as_slice() == [0u32, 1, 3, 0, 1, 2, 3, 1, 2, 3].as_slice());
    assert!(rt;
        grid_rows(heap, 2, 2)?.as_slice()
            == [0u32, 1, 2, 4, 0, 1, 3, 4, 0, 2, 3, 4, 1, 2, 3, 4].as_slice()
    );
    Ok(())
}

#[test]
fn wider_grid(rt: HostRuntime) -> Result<(), Fail> {
    let expected: [u32; 26] = [
        0, 1, 3, 6, 0, 1, 2, 4, 6, 1, 2, 5, 6, 0, 3, 4, 6, 1, 3, 4, 5, 6, 2, 4, 5, 6,
    ];
    assert!(rt; grid_rows(rt.alloc(), 3, 2)?.as_slice() == expected.as_slice());
    Ok(())
}

/// Whether the entries of each run of rows from this one up to a few past the last are those of its rows, counted one by
/// one.
fn runs_from_add_up<P: Pattern>(pattern: &P, from: u32, past: u32) -> bool {
    let mut entries = 0u32;
    for to in from..past {
        if pattern.entries_between(from, to) != entries
            || pattern.entries_between(to, from) > entries
        {
            return false;
        }
        entries = entries.saturating_add(pattern.entry_count(to));
    }
    true
}

/// Whether the entries of each run of rows up to a few past the last are those of its rows.
fn runs_add_up<P: Pattern>(pattern: &P) -> bool {
    let past = pattern.row_count().saturating_add(3);
    (0..past).all(|from| runs_from_add_up(pattern, from, past))
}

#[test]
fn runs_of_rows(rt: HostRuntime) -> Result<(), Fail> {
    for width in 1..7 {
        for height in 1..7 {
            assert_eq!(rt; said_of_grid(width, height, runs_add_up), Ok(true));
        }
    }
    let diagonal = Diagonal::new(9).ok_or_else(|| Fail::new("nine rows were refused"))?;
    assert!(rt; runs_add_up(&diagonal));
    Ok(())
}

#[test]
fn sides(rt: HostRuntime) {
    let shape = Some(Refusal::Shape);
    assert_eq!(rt; sides_fault(0, 3), shape);
    assert_eq!(rt; sides_fault(3, 0), shape);
    assert_eq!(rt; sides_fault(1_000, 1_000), None);
    assert_eq!(rt; sides_fault(1_000, 1_001), shape);
    assert_eq!(rt; sides_fault(1_000_000, 1), None);
    assert_eq!(rt; sides_fault(1, 1_000_001), shape);
    assert_eq!(rt;
        sides_fault(65_536, 65_536),
        shape,
        "a product that is 0 in 32 bits"
    );
}
