//! Small runs, and the number of questions that were really put.
use super::counting::Counting;
use machines::Machines;
use refusal::Declined;
use search::report::{Report, State};
use search::search::Search;
use std::alloc::Global;
use std::test::Fail;

/// A search over machines of these starts, all as slow as 1, over rows of these weights, advanced to its end: its report,
/// the first places that take leaves, and how many questions were put.
fn settle(
    heap: Global,
    weights: &[u32],
    starts: &[u32],
    blocks: u32,
    ceiling: u64,
) -> Result<(Report, [u32; 6], u64), Fail> {
    let slowness = vec![in heap; 1u8; starts.len()]?;
    let weights = Vec::from_slice(heap, weights)?;
    let starts = Vec::from_slice(heap, starts)?;
    let cost = Machines::new(weights, starts, slowness).ok_or_else(|| Fail::new("too many rows"))?;
    let opened = Search::open(Counting { cost, questions: 0 }, blocks, ceiling);
    let mut search = opened.map_err(refused)?;
    let _ = search.advance(64);
    let report = search.tell();
    let mut out = [9u32; 6];
    let _ = search.take(&mut out);
    let Counting { cost, questions } = search.close();
    drop(cost);
    Ok((report, out, questions))
}

/// Lets the cost of a search that was not opened go.
fn refused(declined: Declined<Counting<Machines>>) -> Fail {
    let Declined { reason, brought } = declined;
    let Counting { cost, questions: _ } = brought;
    drop(cost);
    Fail::from(reason)
}

fn report(state: State, floor: u64, figure: u64, advance_trials: u32, questions: u32) -> Report {
    Report {
        state,
        floor,
        figure,
        advance_trials,
        try_trials: 0,
        questions,
    }
}

#[test]
fn no_rows(rt: HostRuntime) -> Result<(), Fail> {
    let heap = rt.alloc();
    let (told, out, put) = settle(heap, &[], &[0], 1, 0)?;
    assert_eq!(rt; told, report(State::Settled, 0, 0, 1, 1));
    assert_eq!(rt; out, [0, 0, 9, 9, 9, 9]);
    assert_eq!(rt; put, 1);
    let (told, out, put) = settle(heap, &[], &[5], 1, 4)?;
    assert_eq!(rt; told.state, State::Missing);
    assert_eq!(rt; told.floor, 5);
    assert_eq!(rt; out, [9, 9, 9, 9, 9, 9]);
    assert_eq!(rt; put, u64::from(told.questions));
    Ok(())
}

#[test]
fn more_blocks_than_rows(rt: HostRuntime) -> Result<(), Fail> {
    let (told, out, put) = settle(rt.alloc(), &[4, 2], &[0, 0, 0, 7], 4, 100)?;
    assert_eq!(rt; told.state, State::Settled);
    assert_eq!(rt;
        told.figure,
        7,
        "the fourth block is empty, and takes 7 to start"
    );
    assert_eq!(rt; out, [0, 2, 2, 2, 2, 9]);
    assert_eq!(rt; put, u64::from(told.questions));
    Ok(())
}

#[test]
fn least_and_most_ceilings(rt: HostRuntime) -> Result<(), Fail> {
    let heap = rt.alloc();
    let (told, _, put) = settle(heap, &[1, 1], &[0, 0], 2, 0)?;
    assert_eq!(rt; told.state, State::Missing);
    assert_eq!(rt; put, u64::from(told.questions));
    let (told, out, put) = settle(heap, &[3, 1, 2], &[0, 0], 2, 1_152_921_504_606_846_975)?;
    assert_eq!(rt; told.state, State::Settled);
    assert_eq!(rt; told.figure, 3);
    assert_eq!(rt; out, [0, 1, 3, 9, 9, 9]);
    assert_eq!(rt; put, u64::from(told.questions));
    Ok(())
}
