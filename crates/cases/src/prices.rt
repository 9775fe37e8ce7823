//! Work over the sample matrix.
use super::bring::{said_of, sample};
use cost::Cost;
use pricing::Work;
use refusal::Refusal;
use std::alloc::Global;
use std::test::Fail;

/// The figures of a cost of four rows for these questions, and its rows.
fn figures<C: Cost>(cost: &mut C) -> [u64; 7] {
    [
        cost.figure(0, 0, 4),
        cost.figure(1, 0, 2),
        cost.figure(4_294_967_295, 2, 4),
        cost.figure(0, 3, 3),
        cost.figure(0, 3, 1),
        cost.figure(0, 2, 4_294_967_295),
        u64::from(cost.row_count()),
    ]
}

/// The figures that the work over the sample matrix gives to these questions, or why its weights are refused.
fn work(heap: Global, row: u32, entry: u32) -> Result<Result<[u64; 7], Refusal>, Fail> {
    let made = Work::new(sample(heap)?, row, entry);
    let (said, pattern) = said_of(made, figures, Work::into_pattern);
    drop(pattern.into_unchecked());
    Ok(said)
}

#[test]
fn work_of_sample(rt: HostRuntime) -> Result<(), Fail> {
    let heap = rt.alloc();
    assert_eq!(rt; work(heap, 1, 1)?, Ok([11, 5, 6, 0, 0, 6, 4]));
    assert_eq!(rt; work(heap, 10, 0)?, Ok([40, 20, 20, 0, 0, 20, 4]));
    assert_eq!(rt; work(heap, 0, 3)?, Ok([21, 9, 12, 0, 0, 12, 4]));
    Ok(())
}

#[test]
fn weights(rt: HostRuntime) -> Result<(), Fail> {
    let heap = rt.alloc();
    assert_eq!(rt;
        work(heap, 1_000_000, 1_000_000)?,
        Ok([11_000_000, 5_000_000, 6_000_000, 0, 0, 6_000_000, 4])
    );
    assert_eq!(rt; work(heap, 1_000_001, 0)?, Err(Refusal::Price));
    assert_eq!(rt; work(heap, 0, 1_000_001)?, Err(Refusal::Price));
    Ok(())
}
