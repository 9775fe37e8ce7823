//! What the tour prints.
use super::even::{boundary, costliest};
use cost::Cost;
use pattern::Pattern;
use pricing::Work;
use refusal::{Declined, Refusal};
use std::alloc::{AllocError, Global};
use std::io;

/// Prints one row with its columns.
fn show_row<P: Pattern>(rt: &HostRuntime, pattern: &P, row: u32) -> io::Result<()> {
    print!(rt; "  row {row}:")?;
    for place in 0..pattern.entry_count(row) {
        let column = pattern.column(row, place);
        print!(rt; " {column}")?;
    }
    println!(rt)
}

/// Prints the size of a pattern and its rows.
pub fn show_pattern<P: Pattern>(rt: &HostRuntime, name: &str, pattern: &P) -> io::Result<()> {
    let rows = pattern.row_count();
    let columns = pattern.column_count();
    let entries = pattern.entries_between(0, rows);
    println!(rt; "{name}: {rows} rows, {columns} columns, {entries} entries.")?;
    for row in 0..rows {
        show_row(rt, pattern, row)?;
    }
    Ok(())
}

/// Prints what a check said of something.
pub fn show_verdict(rt: &HostRuntime, what: &str, fault: Option<Refusal>) -> io::Result<()> {
    match fault {
        Some(reason) => {
            let number = reason.number();
            println!(rt; "  {what}: refused with {number}, {reason}")
        }
        None => println!(rt; "  {what}: accepted"),
    }
}

/// The figure of each block of the even cut.
fn even_figures<C: Cost>(heap: Global, cost: &mut C, blocks: u32) -> Result<Vec<u64>, AllocError> {
    let rows = cost.row_count();
    let mut figures = Vec::new(heap);
    // As it is: in a closure of `map` it got no proof that the block after this one is no more than there are.
    for block in 0..blocks {
        let from = boundary(rows, blocks, block);
        let to = boundary(rows, blocks, block + 1);
        figures.push(cost.figure(block, from, to))?;
    }
    Ok(figures)
}

/// Prints the figure of each block of the even cut, and which block costs the most.
fn show_blocks<C: Cost>(rt: &HostRuntime, cost: &mut C, blocks: u32) -> io::Result<()> {
    let figures = even_figures(rt.alloc(), cost, blocks)?;
    println!(rt; "Its even cut into {blocks} blocks, at 1 a row and 1 an entry:")?;
    for (block, figure) in figures.iter().enumerate() {
        println!(rt; "  block {block} costs {figure}")?;
    }
    match costliest(figures.as_slice()) {
        Some(block) => println!(rt; "Block {block} costs the most."),
        None => println!(rt; "There is no block."),
    }
}

/// Prices the even cut of a pattern's rows and prints it. The pattern is the caller's again.
pub fn show_cut<P: Pattern>(rt: &HostRuntime, pattern: P, blocks: u32) -> (P, io::Result<()>) {
    match Work::new(pattern, 1, 1) {
        Ok(mut work) => {
            let shown = show_blocks(rt, &mut work, blocks);
            (work.into_pattern(), shown)
        }
        Err(Declined { reason, brought }) => {
            (brought, show_verdict(rt, "its weights", Some(reason)))
        }
    }
}
