//! A search over the sample matrix, trial by trial, and two runs that agree.
use super::sample::{beside, end_scanned, refused, scanned};
use cost::Cost;
use search::call::Call;
use search::played::Played;
use search::report::{Report, State};
use search::run::{Planned, compare};
use search::search::Search;
use std::{fmt, io};

/// Where a search stands.
#[derive(Clone, Copy)]
struct Standing(Report);

impl fmt::Display for Standing {
    fn fmt<W: fmt::Write>(&self, f: &mut fmt::Formatter<W>) -> fmt::Result {
        let report = &self.0;
        let state = match report.state {
            State::Open => "open",
            State::Settled => "settled",
            State::Missing => "no cut",
        };
        let trials = report.advance_trials.saturating_add(report.try_trials);
        write!(
            f,
            "{state}: floor {}, figure {}, {trials} trials, {} questions",
            report.floor, report.figure, report.questions
        )
    }
}

/// Advances a search by one trial after another until it ends, and prints each report.
fn show_trials<C: Cost>(rt: &HostRuntime, search: &mut Search<C>) -> io::Result<()> {
    for _ in 0..64 {
        match search.advance(1) {
            Ok(report) => {
                println!(rt; "  {}", Standing(report))?;
                if report.state != State::Open {
                    return Ok(());
                }
            }
            Err(reason) => return println!(rt; "  refused, {reason}"),
        }
    }
    Ok(())
}

/// Prints the standing cut for two blocks.
fn show_standing<C: Cost>(rt: &HostRuntime, search: &mut Search<C>) -> io::Result<()> {
    let mut cut = [0u32; 3];
    match search.take(&mut cut) {
        Ok(()) => println!(rt; "The cut is {cut:?}."),
        Err(reason) => println!(rt; "No cut: {reason}."),
    }
}

/// A search for the cheapest cut of the sample into two blocks, scanned, up to 31.
fn walk_trials(rt: &HostRuntime) -> anyhow::Result<()> {
    println!(rt; "A search for two blocks, scanned, up to 31:")?;
    match Search::open(scanned(rt.alloc())?, 2, 31) {
        Ok(mut search) => {
            let shown = show_trials(rt, &mut search);
            let stands = show_standing(rt, &mut search);
            end_scanned(search.close());
            shown?;
            Ok(stands?)
        }
        Err(declined) => {
            let reason = refused(declined, end_scanned);
            Ok(println!(rt; "  refused, {reason}")?)
        }
    }
}

/// Prints whether two runs have settled on the same cut.
fn show_agreement(rt: &HostRuntime, first: Played, second: Played) -> io::Result<()> {
    println!(rt; "  {}", Standing(first.report))?;
    println!(rt; "  {}", Standing(second.report))?;
    match (first.cut, second.cut) {
        (Some(one), Some(two)) if one == two => {
            let front = &one[0..3];
            println!(rt; "Both settle on the cut {front:?}.")
        }
        _ => println!(rt; "They differ."),
    }
}

/// Two runs with other calls and another ceiling, over costs of equal figures.
fn walk_agreement(rt: &HostRuntime) -> anyhow::Result<()> {
    println!(rt; "Two runs, one by advances up to 31, one by tries and advances up to 1,000:")?;
    let heap = rt.alloc();
    let (first, second) = beside(scanned(heap)?, scanned(heap), end_scanned)?;
    let calls = [Call::Advance(64)];
    let others = [
        Call::Try(20),
        Call::Take(3),
        Call::Advance(1),
        Call::Tell,
        Call::Advance(64),
    ];
    let low = Planned {
        cost: first,
        ceiling: 31,
        calls: &calls,
    };
    let high = Planned {
        cost: second,
        ceiling: 1_000,
        calls: &others,
    };
    let (played, first, second) = compare(2, low, high);
    end_scanned(first);
    end_scanned(second);
    match played {
        Ok((one, two)) => Ok(show_agreement(rt, one, two)?),
        Err(unopened) => {
            let reason = unopened.reason;
            Ok(println!(rt; "  refused, {reason}")?)
        }
    }
}

/// Searches the sample matrix.
pub fn walk_searches(rt: &HostRuntime) -> anyhow::Result<()> {
    walk_trials(rt)?;
    walk_agreement(rt)
}
