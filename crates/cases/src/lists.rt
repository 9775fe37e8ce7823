//! Stored patterns: the sample matrix, the smallest, the limits, and every rule that the check knows.
use super::bring::{checked, fault, sample};
use pattern::Pattern;
use refusal::{Declined, Refusal};
use std::alloc::{AllocError, Global};
use std::iter::once;
use std::test::Fail;
use stored::{Stored, Unchecked};

/// How many entries a row has, and its columns at places 0 to 3.
fn row_answers(pattern: &Stored, row: u32) -> [u32; 5] {
    [
        pattern.entry_count(row),
        pattern.column(row, 0),
        pattern.column(row, 1),
        pattern.column(row, 2),
        pattern.column(row, 3),
    ]
}

/// The answers of a pattern to all questions about rows 0 to 4, places 0 to 3 and runs of rows.
fn answers(heap: Global, pattern: &Stored) -> Result<Vec<u32>, AllocError> {
    let mut said = vec![in heap; pattern.row_count(), pattern.column_count()]?;
    for row in 0..5 {
        said.extend_from_slice(&row_answers(pattern, row))?;
    }
    Ok(said)
}

#[test]
fn sample_matrix(rt: HostRuntime) -> Result<(), Fail> {
    let pattern = sample(rt.alloc())?;
    let said = answers(rt.alloc(), &pattern);
    let runs = [
        pattern.entries_between(0, 4),
        pattern.entries_between(0, 2),
        pattern.entries_between(1, 3),
        pattern.entries_between(3, 1),
        pattern.entries_between(2, 9),
        pattern.entries_between(7, 9),
    ];
    drop(pattern.into_unchecked());
    let expected: [u32; 27] = [
        4, 4, 2, 0, 1, 4, 4, 1, 1, 4, 4, 4, 3, 0, 2, 3, 4, 1, 3, 4, 4, 4, 0, 4, 4, 4, 4,
    ];
    assert!(rt; said?.as_slice() == expected.as_slice());
    assert_eq!(rt; runs, [7, 3, 4, 0, 4, 0]);
    Ok(())
}

#[test]
fn no_rows_and_no_columns(rt: HostRuntime) -> Result<(), Fail> {
    let heap = rt.alloc();
    assert_eq!(rt; fault(heap, 0, &[0], &[])?, None);
    assert_eq!(rt; fault(heap, 3, &[0], &[])?, None);
    assert_eq!(rt; fault(heap, 0, &[0, 0, 0], &[])?, None);
    assert_eq!(rt; fault(heap, 0, &[0, 1], &[0])?, Some(Refusal::Column));
    let pattern = checked(Unchecked::copied(heap, 3, &[0], &[])?)?;
    let said = [
        pattern.row_count(),
        pattern.column_count(),
        pattern.entry_count(0),
        pattern.column(0, 0),
        pattern.entries_between(0, 1),
    ];
    drop(pattern.into_unchecked());
    assert_eq!(rt; said, [0, 3, 0, 3, 0]);
    Ok(())
}

#[test]
fn starts(rt: HostRuntime) -> Result<(), Fail> {
    let heap = rt.alloc();
    let shape = Some(Refusal::Shape);
    assert_eq!(rt; fault(heap, 4, &[], &[])?, shape, "no starts");
    assert_eq!(rt; fault(heap, 4, &[1, 2], &[0, 1])?, shape, "not from 0");
    assert_eq!(rt;
        fault(heap, 4, &[0, 2, 1, 3], &[0, 1, 2])?,
        shape,
        "falling"
    );
    assert_eq!(rt; fault(heap, 4, &[0, 1, 1, 3], &[0, 1, 2])?, None, "level");
    assert_eq!(rt; fault(heap, 4, &[0, 2], &[0, 1, 2])?, shape, "ends early");
    assert_eq!(rt; fault(heap, 4, &[0, 4], &[0, 1, 2])?, shape, "ends late");
    Ok(())
}

#[test]
fn columns(rt: HostRuntime) -> Result<(), Fail> {
    let heap = rt.alloc();
    let column = Some(Refusal::Column);
    assert_eq!(rt; fault(heap, 4, &[0, 2], &[0, 3])?, None, "the last column");
    assert_eq!(rt; fault(heap, 4, &[0, 2], &[0, 4])?, column, "one past it");
    assert_eq!(rt; fault(heap, 4, &[0, 2], &[1, 2])?, None, "rising");
    assert_eq!(rt; fault(heap, 4, &[0, 2], &[1, 1])?, column, "level");
    assert_eq!(rt; fault(heap, 4, &[0, 2], &[2, 1])?, column, "falling");
    assert_eq!(rt;
        fault(heap, 4, &[0, 1, 2], &[2, 1])?,
        None,
        "falling from row to row"
    );
    assert_eq!(rt;
        fault(heap, 4, &[0, 3], &[0, 4])?,
        Some(Refusal::Shape),
        "both rules broken"
    );
    Ok(())
}

/// So many starts, all 0: a pattern of empty rows.
fn empty_rows(heap: Global, starts: usize) -> Result<Vec<u32>, AllocError> {
    vec![in heap; 0u32; starts]
}

#[test]
fn most_rows_and_columns(rt: HostRuntime) -> Result<(), Fail> {
    let heap = rt.alloc();
    let last = empty_rows(heap, 1_000_001)?;
    let first = empty_rows(heap, 1_000_002)?;
    assert_eq!(rt; fault(heap, 1_000_000, last.as_slice(), &[])?, None);
    assert_eq!(rt;
        fault(heap, 1_000_000, first.as_slice(), &[])?,
        Some(Refusal::Shape)
    );
    assert_eq!(rt;
        fault(heap, 1_000_001, last.as_slice(), &[])?,
        Some(Refusal::Shape)
    );
    Ok(())
}

/// The first so many numbers, from 0 again after each million.
fn many_columns(heap: Global, count: u32) -> Result<Vec<u32>, AllocError> {
    (0..count).map(|i| i % 1_000_000).collect(heap)
}

/// The starts of so many rows of a million entries, and of one row with the rest of the entries.
fn million_starts(heap: Global, rows: u32, entries: u32) -> Result<Vec<u32>, AllocError> {
    (0..rows)
        .map(|row| row.saturating_mul(1_000_000))
        .chain(once(entries))
        .collect(heap)
}

#[test]
fn most_entries(rt: HostRuntime) -> Result<(), Fail> {
    let heap = rt.alloc();
    let last = many_columns(heap, 16_777_216)?;
    let last_starts = million_starts(heap, 17, 16_777_216)?;
    assert_eq!(rt;
        fault(heap, 1_000_000, last_starts.as_slice(), last.as_slice())?,
        None
    );
    let first = many_columns(heap, 16_777_217)?;
    let first_starts = million_starts(heap, 17, 16_777_217)?;
    assert_eq!(rt;
        fault(heap, 1_000_000, first_starts.as_slice(), first.as_slice())?,
        Some(Refusal::Shape)
    );
    Ok(())
}

#[test]
fn refused_lists_come_back(rt: HostRuntime) -> Result<(), Fail> {
    let heap = rt.alloc();
    let checked = Unchecked::copied(heap, 5, &[0, 2, 3], &[0, 5, 1])?.check();
    let Err(Declined { reason, brought }) = checked.map(Stored::into_unchecked) else {
        return Err(Fail::new("a column out of range was accepted"));
    };
    let starts = brought.starts.as_slice() == [0u32, 2, 3].as_slice();
    let columns = brought.columns.as_slice() == [0u32, 5, 1].as_slice();
    assert_eq!(rt; reason, Refusal::Column);
    assert!(rt; brought.width == 5 && starts && columns);
    Ok(())
}
