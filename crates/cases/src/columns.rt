//! The costs that count columns, on the sample matrix.
use super::bring::{checked, end_marked, marked, marked_sample, said_of};
use cost::Cost;
use marks::Marked;
use owners::Owners;
use pricing::{Footprint, Nonlocal, Scanned, Weights};
use refusal::Refusal;
use std::alloc::Global;
use std::test::Fail;
use stored::{Stored, Unchecked};

/// The figures of a cost for these questions, the second and the last of them about no rows.
fn figures<C: Cost>(cost: &mut C) -> [u64; 6] {
    [
        cost.figure(0, 0, 2),
        cost.figure(0, 2, 2),
        cost.figure(1, 2, 4),
        cost.figure(255, 1, 3),
        cost.figure(256, 0, 4_294_967_295),
        cost.figure(1, 3, 1),
    ]
}

fn scanned(heap: Global, weights: Weights) -> Result<Result<[u64; 6], Refusal>, Fail> {
    let made = Scanned::new(marked_sample(heap)?, weights);
    let (said, marked) = said_of(made, figures, Scanned::into_marked);
    end_marked(marked);
    Ok(said)
}

/// The footprint of a pattern, or why it is refused.
fn footprint(marked: Marked<Stored>, weights: Weights) -> Result<[u64; 6], Refusal> {
    let made = Footprint::new(marked, weights);
    let (said, marked) = said_of(made, figures, Footprint::into_marked);
    end_marked(marked);
    said
}

fn nonlocal(
    heap: Global,
    bytes: &[u8],
    weights: Weights,
) -> Result<Result<[u64; 6], Refusal>, Fail> {
    let owners = Owners::new(Vec::from_slice(heap, bytes)?);
    let made = Nonlocal::new(marked_sample(heap)?, owners, weights);
    let (said, (marked, owners)) = said_of(made, figures, Nonlocal::into_parts);
    end_marked(marked);
    drop(owners);
    Ok(said)
}

const SAMPLE: Weights = Weights {
    row: 1,
    entry: 1,
    column: 2,
};

#[test]
fn figures_of_sample(rt: HostRuntime) -> Result<(), Fail> {
    let heap = rt.alloc();
    assert_eq!(rt; scanned(heap, SAMPLE)?, Ok([9, 0, 12, 14, 19, 0]));
    assert_eq!(rt;
        footprint(marked_sample(heap)?, SAMPLE),
        Ok([9, 0, 12, 14, 19, 0])
    );
    assert_eq!(rt;
        nonlocal(heap, &[0, 0, 1, 1], SAMPLE)?,
        Ok([5, 0, 8, 14, 19, 0])
    );
    assert_eq!(rt;
        nonlocal(heap, &[0, 255, 255, 77], SAMPLE)?,
        Ok([7, 0, 12, 14, 19, 0])
    );
    Ok(())
}

/// Weights of a row, an entry and a column.
fn weights(row: u32, entry: u32, column: u32) -> Weights {
    Weights { row, entry, column }
}

#[test]
fn last_and_first_weights(rt: HostRuntime) -> Result<(), Fail> {
    let heap = rt.alloc();
    let last = weights(1_000_000, 1_000_000, 1_000_000);
    assert_eq!(rt;
        scanned(heap, last)?,
        Ok([7_000_000, 0, 9_000_000, 10_000_000, 15_000_000, 0])
    );
    let price: Result<[u64; 6], Refusal> = Err(Refusal::Price);
    assert_eq!(rt; scanned(heap, weights(1_000_001, 0, 0))?, price);
    assert_eq!(rt; scanned(heap, weights(0, 1_000_001, 0))?, price);
    assert_eq!(rt; scanned(heap, weights(0, 0, 1_000_001))?, price);
    assert_eq!(rt;
        footprint(marked_sample(heap)?, weights(0, 0, 1_000_001)),
        price
    );
    assert_eq!(rt;
        nonlocal(heap, &[0, 0, 1, 1], weights(0, 0, 1_000_001))?,
        price
    );
    Ok(())
}

#[test]
fn owners_one_short_and_one_long(rt: HostRuntime) -> Result<(), Fail> {
    let heap = rt.alloc();
    let owners: Result<[u64; 6], Refusal> = Err(Refusal::Owners);
    assert_eq!(rt; nonlocal(heap, &[0, 0, 1], SAMPLE)?, owners);
    assert_eq!(rt; nonlocal(heap, &[0, 0, 1, 1, 1], SAMPLE)?, owners);
    assert_eq!(rt;
        nonlocal(heap, &[0, 0, 1], weights(0, 0, 1_000_001))?,
        Err(Refusal::Price)
    );
    Ok(())
}

#[test]
fn footprint_counts_rows_and_wants_a_square(rt: HostRuntime) -> Result<(), Fail> {
    let heap = rt.alloc();
    assert_eq!(rt; footprint_of_corner(heap, 3)?, Ok([7, 0, 6, 9, 11, 0]));
    assert_eq!(rt; footprint_of_corner(heap, 4)?, Err(Refusal::Price));
    assert_eq!(rt; footprint_of_corner(heap, 2)?, Err(Refusal::Price));
    Ok(())
}

/// The footprint of rows 1, none and 0 of so many columns at the weights of the sample, or why it is refused, with the
/// marks of another pattern.
fn footprint_of_corner(heap: Global, width: u32) -> Result<Result<[u64; 6], Refusal>, Fail> {
    let (other, marks) = marked_sample(heap)?.into_parts();
    drop(other.into_unchecked());
    let pattern = checked(Unchecked::copied(heap, width, &[0, 1, 1, 2], &[1, 0])?)?;
    Ok(footprint(marked(pattern, marks)?, SAMPLE))
}
