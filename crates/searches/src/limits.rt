//! The last value that is taken and the first that is declined.
use machines::Machines;
use refusal::Refusal;
use search::search::Search;
use std::alloc::Global;
use std::test::Fail;

/// Machines over rows of weight 1: the first starts at once and the second takes 3 to start.
fn machines(heap: Global, rows: usize) -> Result<Machines, Fail> {
    let weights = vec![in heap; 1u32; rows]?;
    let starts = Vec::from_slice(heap, &[0, 3])?;
    let slowness = Vec::from_slice(heap, &[1, 1])?;
    Machines::new(weights, starts, slowness).ok_or_else(|| Fail::new("too many rows"))
}

/// Why a search is not opened, if it is not.
fn opening(heap: Global, blocks: u32, ceiling: u64) -> Result<Option<Refusal>, Fail> {
    let opened = Search::open(machines(heap, 4)?, blocks, ceiling).map(Search::close);
    Ok(opened.err().map(|declined| declined.reason))
}

/// A search over four rows for two blocks up to 9.
fn small_search(heap: Global) -> Result<Search<Machines>, Fail> {
    Search::open(machines(heap, 4)?, 2, 9).map_err(|declined| Fail::from(declined.reason))
}

const MOST: u64 = 1_152_921_504_606_846_976;

#[test]
fn openings(rt: HostRuntime) -> Result<(), Fail> {
    let heap = rt.alloc();
    assert_eq!(rt; opening(heap, 1, 0)?, None);
    assert_eq!(rt; opening(heap, 0, 0)?, Some(Refusal::Blocks));
    assert_eq!(rt; opening(heap, 1_024, MOST - 1)?, None);
    assert_eq!(rt; opening(heap, 1_025, MOST - 1)?, Some(Refusal::Blocks));
    assert_eq!(rt; opening(heap, 1_024, MOST)?, Some(Refusal::Ceiling));
    assert_eq!(rt; opening(heap, 1_025, MOST)?, Some(Refusal::Blocks));
    Ok(())
}

/// Why an advance by n is declined, if it is, and a try at c after it.
fn advance_and_try(
    heap: Global,
    n: u32,
    c: u64,
) -> Result<(Option<Refusal>, Option<Refusal>), Fail> {
    let mut search = small_search(heap)?;
    let advanced = search.advance(n).err();
    let tried = search.try_at(c).err();
    drop(search.close());
    Ok((advanced, tried))
}

#[test]
fn counts_and_ceilings(rt: HostRuntime) -> Result<(), Fail> {
    let heap = rt.alloc();
    let count = Some(Refusal::Count);
    assert_eq!(rt; advance_and_try(heap, 0, 9)?, (count, None));
    assert_eq!(rt; advance_and_try(heap, 1, 9)?, (None, None));
    assert_eq!(rt; advance_and_try(heap, 64, 0)?, (None, None));
    assert_eq!(rt; advance_and_try(heap, 65, 0)?, (count, None));
    assert_eq!(rt;
        advance_and_try(heap, 64, 10)?,
        (None, Some(Refusal::Ceiling))
    );
    Ok(())
}

/// What take says and leaves of so many places that hold 7, before an advance and after it.
fn takes(
    heap: Global,
    places: usize,
) -> Result<(Option<Refusal>, Option<Refusal>, Vec<u32>), Fail> {
    let mut out = vec![in heap; 7u32; places]?;
    let mut search = small_search(heap)?;
    let early = search.take(out.as_mut_slice()).err();
    let _ = search.advance(64);
    let late = search.take(out.as_mut_slice()).err();
    drop(search.close());
    Ok((early, late, out))
}

#[test]
fn buffers(rt: HostRuntime) -> Result<(), Fail> {
    let heap = rt.alloc();
    let (early, late, out) = takes(heap, 2)?;
    assert_eq!(rt; early, Some(Refusal::NoCut));
    assert_eq!(rt; late, Some(Refusal::Short));
    assert!(rt; out.as_slice() == [7u32, 7].as_slice());
    let (early, late, out) = takes(heap, 5)?;
    assert_eq!(rt; early, Some(Refusal::NoCut));
    assert_eq!(rt; late, None);
    assert!(rt; out.as_slice() == [0u32, 4, 4, 7, 7].as_slice());
    Ok(())
}
