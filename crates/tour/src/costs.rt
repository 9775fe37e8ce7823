//! The two blocks of the sample matrix, priced by each cost and each combination.
use super::sample::{WEIGHTS, beside, end_marked, end_scanned, marked, refused, sample, scanned};
use anyhow::anyhow;
use combine::{Greater, Limit, Sum, Times};
use cost::Cost;
use owners::Owners;
use pricing::{Footprint, Nonlocal, Scanned, Work};
use refusal::Declined;
use std::alloc::Global;
use std::io;
use stored::Stored;

/// The number of entries of a block, as a cost.
fn entries(heap: Global) -> anyhow::Result<Work<Stored>> {
    let made = Work::new(sample(heap)?, 0, 1);
    made.map_err(|declined| {
        let _ = refused(declined, |pattern| drop(pattern.into_unchecked()));
        anyhow!("the weights were refused")
    })
}

fn end_entries(entries: Work<Stored>) {
    drop(entries.into_pattern().into_unchecked());
}

/// The number of entries and the scanned cost, to be combined.
fn both(heap: Global) -> anyhow::Result<(Work<Stored>, Scanned<Stored>)> {
    beside(entries(heap)?, scanned(heap), end_entries)
}

fn end_both((entries, scanned): (Work<Stored>, Scanned<Stored>)) {
    end_entries(entries);
    end_scanned(scanned);
}

/// Prints the figures of the two blocks, or why the cost was declined, and ends what it was made of.
fn show<C: Cost, B, F: FnOnce(C) -> B, G: FnOnce(B)>(
    rt: &HostRuntime,
    name: &str,
    made: Result<C, Declined<B>>,
    into_parts: F,
    end: G,
) -> io::Result<()>
    requires into_parts { F.IsAlwaysCallable into_parts }
    requires end { G.IsAlwaysCallable end }
{
    match made {
        Ok(mut cost) => {
            let first = cost.figure(0, 0, 2);
            let second = cost.figure(1, 2, 4);
            end(into_parts(cost));
            println!(rt; "  {name}: {first} and {second}")
        }
        Err(declined) => {
            let reason = refused(declined, end);
            println!(rt; "  {name}: refused, {reason}")
        }
    }
}

/// Prices both blocks by the costs of the sample.
fn walk_named(rt: &HostRuntime) -> anyhow::Result<()> {
    let heap = rt.alloc();
    let made = Scanned::new(marked(heap)?, WEIGHTS);
    show(rt, "scanned", made, Scanned::into_marked, end_marked)?;
    let made = Footprint::new(marked(heap)?, WEIGHTS);
    show(rt, "footprint", made, Footprint::into_marked, end_marked)?;
    let owners = Owners::new(Vec::from_slice(heap, &[0, 0, 1, 1])?);
    let made = Nonlocal::new(marked(heap)?, owners, WEIGHTS);
    let name = "nonlocal, each block owning two columns";
    let end = |(marked, _)| end_marked(marked);
    Ok(show(rt, name, made, Nonlocal::into_parts, end)?)
}

/// Prices both blocks by the combinations of the number of entries and the scanned cost.
fn walk_combined(rt: &HostRuntime) -> anyhow::Result<()> {
    let heap = rt.alloc();
    let (first, second) = both(heap)?;
    let made = Sum::new(first, second);
    show(
        rt,
        "entries and scanned, added",
        made,
        Sum::into_parts,
        end_both,
    )?;
    let (first, second) = both(heap)?;
    let made = Greater::new(first, second);
    let name = "entries or scanned, the larger";
    show(rt, name, made, Greater::into_parts, end_both)?;
    let made = Times::new(scanned(heap)?, 3);
    show(rt, "scanned, 3 times", made, Times::into_cost, end_scanned)?;
    let (measure, base) = both(heap)?;
    let made = Limit::new(measure, 4, base);
    let name = "scanned, barred from 4 entries on";
    Ok(show(rt, name, made, Limit::into_parts, end_both)?)
}

/// Prices both blocks by each cost in turn.
pub fn walk_costs(rt: &HostRuntime) -> anyhow::Result<()> {
    println!(rt; "Rows 0 to 2 and rows 2 to 4, at 1 a row, 1 an entry and 2 a column:")?;
    walk_named(rt)?;
    walk_combined(rt)
}
