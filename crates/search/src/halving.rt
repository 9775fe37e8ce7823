// The questions of one block of a trial.
ghost use Rattle.std.specs.Prelude.{◌≡◌, ◌+◌, ◌<◌, ◌≤◌, nat_le};
ghost use Rattle.cost.specs.Price.{asked};
ghost use Rattle.search.specs.Halving.{Enough, Furthest, halved, halving_asks, middle};
ghost use Rattle.search.specs.Trails.{Trail};

use cost::Cost;

/// Whether a block of this figure is granted at c.
pub(crate) fn grants(figure: u64, c: u64) -> bool
    ensures { result ≡ nat_le figure c }
{
    figure <= c
}

/// The middle of low to past - 1, rounded down.
fn middle_of(low: u32, past: u32) -> u32
    requires order { low < past }
    requires few { past ≤ 1000001 }
    ensures { result ≡ middle low past }
{
    (low + past - 1) / 2
}

/// The row after a granted one.
fn row_after(row: u32) -> u32
    requires { row ≤ 1000000 }
    ensures { result ≡ row + 1 }
{
    row + 1
}

/// One question more.
fn one_more(questions: u32) -> u32
    requires { questions < 20 }
    ensures { result ≡ questions + 1 }
{
    questions + 1
}

/// Puts one question.
// As it is: that the cost means the same afterwards is said of two moments, here and below, so no type can hold it.
fn ask<C: Cost>(cost: &mut C, block: u32, start: u32, row: u32) -> u64
    ensures value { result ≡ asked (C.price cost.old) block start row }
    ensures same { C.price cost.new ≡ C.price cost.old }
    ensures puts { C.put cost.old block start row cost.new }
{
    cost.figure(block, start, row)
}

/// The furthest row from `start` to `high` at which the block from `start` on is granted at c, its figure, and the number of
/// questions; where none is granted, `start` and its figure, which is then above c.
// As it is: a tuple of row, figure and questions is the form laid down for what a halving gives.
pub(crate) fn halving<C: Cost>(
    cost: &mut C,
    block: u32,
    start: u32,
    high: u32,
    c: u64,
) -> (u32, u64, u32)
    requires order { start ≤ high }
    requires within { high ≤ (C.price cost.old).rows }
    ensures exact { result ≡ halved (C.price cost.old) block start start high c }
    ensures furthest { Furthest (C.price cost.old) block start start high c result.0 result.1 result.2 }
    ensures enough { Enough (C.price cost.old) block start start high c }
    ensures same { C.price cost.new ≡ C.price cost.old }
    ensures puts { Trail C.put cost.old (halving_asks (C.price cost.old) block start start high c) cost.new }
{
    let mut from = start;
    let mut past = high + 1;
    let mut granted: u64 = 0;
    let mut refused: u64 = 0;
    let mut questions: u32 = 0;
    // As it is: it halves a range of row numbers, and the library halves slices only.
    while from < past {
        let middle = middle_of(from, past);
        let figure = ask(cost, block, start, middle);
        questions = one_more(questions);
        if grants(figure, c) {
            granted = figure;
            from = row_after(middle);
        } else {
            refused = figure;
            past = middle;
        }
    }
    if from > start {
        (from - 1, granted, questions)
    } else {
        (start, refused, questions)
    }
}
