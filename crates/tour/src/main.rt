//! A tour: a small matrix is checked, an even cut of its rows is priced by each cost, the cheapest cut is searched for, and
//! damaged copies of the matrix are refused; then a grid.
#![tactic(auto)]

mod costs;
mod even;
mod sample;
mod searching;
mod show;

use costs::walk_costs;
use grid::Grid;
use pattern::Pattern;
use sample::unchecked;
use searching::walk_searches;
use show::{show_cut, show_pattern, show_verdict};
use std::io;
use stored::{Stored, Unchecked};

/// Says what the check finds wrong with these lists.
fn try_damaged(
    rt: &HostRuntime,
    what: &str,
    starts: &[u32],
    columns: &[u32],
) -> anyhow::Result<()> {
    let pattern = Unchecked::copied(rt.alloc(), 4, starts, columns)?;
    Ok(show_verdict(rt, what, pattern.fault())?)
}

/// Prints a pattern and the prices of its blocks; then the pattern is ended.
fn walk<P: Pattern, L: Drop, F: FnOnce(P) -> L>(
    rt: &HostRuntime,
    name: &str,
    pattern: P,
    blocks: u32,
    end: F,
) -> io::Result<()>
    requires { F.IsAlwaysCallable end }
{
    let shown = show_pattern(rt, name, &pattern);
    let (pattern, priced) = show_cut(rt, pattern, blocks);
    drop(end(pattern));
    shown?;
    priced
}

/// The sample matrix, from its lists to the prices of its blocks.
fn walk_sample(rt: &HostRuntime) -> anyhow::Result<()> {
    let sample = unchecked(rt.alloc())?;
    let name = "The sample matrix passes the check";
    match sample.check() {
        Ok(pattern) => walk(rt, name, pattern, 2, Stored::into_unchecked)?,
        Err(declined) => show_verdict(rt, "the sample matrix", Some(declined.reason))?,
    }
    Ok(())
}

/// A grid, from its sides to the prices of its blocks.
fn walk_grid(rt: &HostRuntime) -> io::Result<()> {
    let name = "A grid, 3 wide and 3 high, with no stored columns";
    match Grid::new(3, 3) {
        Ok(grid) => walk(rt, name, grid, 3, Grid::into_sides),
        Err(reason) => show_verdict(rt, "a grid of 3 by 3", Some(reason)),
    }
}

/// Says whether a grid with these sides is refused.
fn try_sides(rt: &HostRuntime, what: &str, width: u32, height: u32) -> io::Result<()> {
    let fault = Grid::new(width, height).map(Grid::into_sides).err();
    show_verdict(rt, what, fault)
}

fn main(rt: HostRuntime) -> anyhow::Result<()> {
    walk_sample(&rt)?;
    walk_costs(&rt)?;
    walk_searches(&rt)?;
    println!(rt; "Damaged copies of it:")?;
    try_damaged(
        &rt,
        "the third start is below the second",
        &[0, 3, 2, 6, 7],
        &[0, 1, 1, 0, 2, 3, 3],
    )?;
    try_damaged(
        &rt,
        "the last column is 4, of 4 columns",
        &[0, 2, 3, 6, 7],
        &[0, 1, 1, 0, 2, 3, 4],
    )?;
    try_damaged(
        &rt,
        "row 2 names column 2 twice",
        &[0, 2, 3, 6, 7],
        &[0, 1, 1, 0, 2, 2, 3],
    )?;
    println!(rt)?;
    walk_grid(&rt)?;
    println!(rt; "Other grids:")?;
    try_sides(&rt, "0 wide and 3 high", 0, 3)?;
    try_sides(&rt, "1,000 wide and 1,001 high", 1_000, 1_001)?;
    try_sides(&rt, "1,000 wide and 1,000 high", 1_000, 1_000)?;
    Ok(())
}
