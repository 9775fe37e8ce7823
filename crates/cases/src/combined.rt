//! Combinations of costs: at and past 2^60, and of unequal rows.
use super::bring::{beside, refused, said_of};
use combine::{Greater, Limit, Sum, Times};
use cost::Cost;
use grid::Grid;
use pricing::Work;
use refusal::Refusal;
use std::test::Fail;

const MOST: u64 = 1_152_921_504_606_846_976;

/// Work at so much a row, over a grid of one line.
fn rows(points: u32, weight: u32) -> Result<Work<Grid>, Fail> {
    let made = Work::new(Grid::new(points, 1)?, weight, 0);
    made.map_err(|declined| refused(declined, end_grid))
}

fn end_grid(grid: Grid) {
    let _ = grid.into_sides();
}

fn end(work: Work<Grid>) {
    end_grid(work.into_pattern());
}

fn end_both((first, second): (Work<Grid>, Work<Grid>)) {
    end(first);
    end(second);
}

fn end_barred(barred: Limit<Work<Grid>, Work<Grid>>) {
    end_both(barred.into_parts());
}

/// What one row at a weight comes to, three times over 524,288-fold: the weight times 2^57, at most 2^60.
fn multiplied(weight: u32) -> Result<u64, Fail> {
    let once = Times::new(rows(1, weight)?, 524_288);
    let once = once.map_err(|declined| refused(declined, end))?;
    let twice = Times::new(once, 524_288);
    let twice = twice.map_err(|declined| refused(declined, |once| end(once.into_cost())))?;
    let thrice = Times::new(twice, 524_288);
    let (said, twice) = said_of(thrice, |thrice| thrice.figure(3, 0, 1), Times::into_cost);
    end(twice.into_cost().into_cost());
    Ok(said?)
}

#[test]
fn products_stop(rt: HostRuntime) -> Result<(), Fail> {
    assert_eq!(rt; multiplied(7)?, 1_008_806_316_530_991_104);
    assert_eq!(rt; multiplied(8)?, MOST);
    assert_eq!(rt; multiplied(9)?, MOST);
    Ok(())
}

/// What one row at weight 2 comes to, so many times.
fn times(factor: u32) -> Result<Result<u64, Refusal>, Fail> {
    let made = Times::new(rows(1, 2)?, factor);
    let (said, cost) = said_of(made, |times| times.figure(0, 0, 1), Times::into_cost);
    end(cost);
    Ok(said)
}

#[test]
fn factors(rt: HostRuntime) -> Result<(), Fail> {
    assert_eq!(rt; times(1_000_000)?, Ok(2_000_000));
    assert_eq!(rt; times(1_000_001)?, Err(Refusal::Price));
    Ok(())
}

/// What a cost asks for two rows.
fn figure<C: Cost>(cost: &mut C) -> u64 {
    cost.figure(0, 0, 2)
}

/// The sum, the larger and the limited of two costs of rows, or why they are refused.
fn combined(first: u32, second: u32, limit: u64) -> Result<Result<[u64; 3], Refusal>, Fail> {
    let (a, b) = beside(rows(first, 3)?, rows(second, 5), end)?;
    let (sum, (a, b)) = said_of(Sum::new(a, b), figure, Sum::into_parts);
    let (larger, (a, b)) = said_of(Greater::new(a, b), figure, Greater::into_parts);
    let (limited, parts) = said_of(Limit::new(a, limit, b), figure, Limit::into_parts);
    end_both(parts);
    Ok(together(sum, larger, limited))
}

fn together(
    sum: Result<u64, Refusal>,
    larger: Result<u64, Refusal>,
    limited: Result<u64, Refusal>,
) -> Result<[u64; 3], Refusal> {
    Ok([sum?, larger?, limited?])
}

#[test]
fn combinations(rt: HostRuntime) -> Result<(), Fail> {
    assert_eq!(rt; combined(4, 4, 7)?, Ok([16, 10, 10]));
    assert_eq!(rt; combined(4, 4, 6)?, Ok([16, 10, MOST]));
    assert_eq!(rt; combined(4, 4, 0)?, Ok([16, 10, MOST]));
    assert_eq!(rt; combined(4, 5, 7)?, Err(Refusal::Unequal));
    assert_eq!(rt; combined(5, 4, 7)?, Err(Refusal::Unequal));
    Ok(())
}

/// What a barred block and a free one at so much a row come to in a sum.
fn barred_sum(weight: u32) -> Result<u64, Fail> {
    let (measure, base) = beside(rows(2, 1)?, rows(2, 1), end)?;
    let barred = Limit::new(measure, 0, base);
    let barred = barred.map_err(|declined| refused(declined, end_both))?;
    let (barred, third) = beside(barred, rows(2, weight), end_barred)?;
    let (said, (barred, third)) = said_of(Sum::new(barred, third), figure, Sum::into_parts);
    end_barred(barred);
    end(third);
    Ok(said?)
}

#[test]
fn sums_stop(rt: HostRuntime) -> Result<(), Fail> {
    assert_eq!(rt; barred_sum(0)?, MOST);
    assert_eq!(rt; barred_sum(1)?, MOST);
    assert_eq!(rt; barred_sum(1_000_000)?, MOST);
    Ok(())
}
