// One trial: from block to block, each as far as c grants.
ghost use Rattle.std.specs.Prelude.{◌≡◌, ◌+◌, ◌<◌, ◌≤◌, max, length, take};
ghost use Rattle.search.specs.Trails.{Trail};
ghost use Rattle.search.specs.Trial.{TrialLaw, outcome, trial_to};

use crate::halving::{grants, halving};
use cost::Cost;

/// The greater of two figures.
fn dearer(worst: u64, figure: u64) -> u64
    ensures { result ≡ max worst figure }
{
    worst.max(figure)
}

/// A trial at c over the rows up to `end`: it writes its boundaries to the front of `boundaries`, and answers with what
/// its cut costs and the number of questions, or with that number alone where it fails.
pub(crate) fn trial<C: Cost>(
    cost: &mut C,
    boundaries: &mut [u32],
    blocks: u32,
    end: u32,
    c: u64,
) -> Result<(u64, u32), u32>
    requires few { blocks ≤ 1024 }
    requires room { blocks < length boundaries.old }
    requires within { end ≤ (C.price cost.old).rows }
    ensures exact { result ≡ outcome end blocks (trial_to (C.price cost.old) end c blocks) }
    ensures written { take (length (trial_to (C.price cost.old) end c blocks).cut) boundaries.new ≡ (trial_to (C.price cost.old) end c blocks).cut }
    ensures law { TrialLaw (C.price cost.old) end c blocks (take (blocks + 1) boundaries.new) result }
    ensures same { C.price cost.new ≡ C.price cost.old }
    ensures puts { Trail C.put cost.old (trial_to (C.price cost.old) end c blocks).questions cost.new }
{
    boundaries[0] = 0;
    let mut start: u32 = 0;
    let mut worst: u64 = 0;
    let mut questions: u32 = 0;
    // As it is: each boundary is written by its number, since the check knows no element that a `zip` over lent places wrote.
    for k in 0..blocks {
        let (boundary, figure, put) = halving(cost, k, start, end, c);
        questions += put;
        if !grants(figure, c) {
            return Err(questions);
        }
        boundaries[k as usize + 1] = boundary;
        start = boundary;
        worst = dearer(worst, figure);
    }
    if start == end {
        Ok((worst, questions))
    } else {
        Err(questions)
    }
}
