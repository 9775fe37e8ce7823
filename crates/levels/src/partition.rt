ghost use Rattle.std.specs.Prelude.{◌≡◌, ◌+◌, ◌-◌, ◌*◌, ◌^◌, ◌<◌, ◌≤◌, length};
ghost use Rattle.gather.specs.Bits.{sum_to};
ghost use Rattle.gather.specs.Selections.{selection};
ghost use Rattle.levels.specs.Layouts.{InReach};
ghost use Rattle.levels.specs.Planes.{Outside, bits_from};
ghost use Rattle.levels.specs.Rooms.{Each, Filled, Grown, Wiped};
ghost use Rattle.levels.specs.Spans.{AllRouted, Tails, ends};

use super::span::Span;
use super::streams::part_word;
use gather::{Masks, set_bits};

/// Where the streams of a parting begin: the zeros first, and the ones after all of them.
fn first_places(zeros: usize) -> (usize, usize)
    ensures { (result.0 ≡ 0) × (result.1 ≡ zeros) }
{
    (0, zeros)
}

impl Span {
    /// Clears the rooms of the levels.
    fn wipe_rooms(&self, memory: &mut [u64])
        requires { InReach self.now memory.old }
        ensures wiped { Each self.now.words self.now.bits (Wiped self.now.words memory.old memory.new) self.now.at }
        ensures outside { Outside self.now.at (ends self.now.words self.now.bits self.now.at) memory.old memory.new }
    {
        let words = self.words;
        self.each(
            memory,
            |level: &mut [u64]|
                requires { length level.old ≡ 2 * words + 2 }
                ensures { Wiped words level.old level.new 0 }
            {
                level[words + 1..].fill(0);
            },
        );
    }

    /// Adds the bits of word `i` of each plane to the two streams of its room, from positions `lo` and `hi` on.
    fn part_words(
        &self,
        memory: &mut [u64],
        i: usize,
        lo: usize,
        hi: usize,
        zeros: &Masks,
        ones: &Masks,
    )
        requires { (InReach self.now memory.old) × (i < self.now.words) × (lo ≤ 64 * self.now.words) × (hi ≤ 64 * self.now.words) }
        ensures grown { Each self.now.words self.now.bits (Grown (selection zeros.now) (selection ones.now) self.now.words i lo hi memory.old memory.new) self.now.at }
        ensures outside { Outside self.now.at (ends self.now.words self.now.bits self.now.at) memory.old memory.new }
    {
        let words = self.words;
        self.each(
            memory,
            |level: &mut [u64]|
                requires { (length level.old ≡ 2 * words + 2) × (i < words) × (lo ≤ 64 * words) × (hi ≤ 64 * words) }
                ensures { Grown (selection zeros.entry.now) (selection ones.entry.now) words i lo hi level.old level.new 0 }
            {
                let x = level[i + 1];
                part_word(&mut level[words + 1..], lo, hi, x, zeros, ones);
            },
        );
    }

    /// Copies the rooms of the levels to their planes.
    fn fill_planes(&self, memory: &mut [u64])
        requires { InReach self.now memory.old }
        ensures filled { Each self.now.words self.now.bits (Filled self.now.words memory.old memory.new) self.now.at }
        ensures outside { Outside self.now.at (ends self.now.words self.now.bits self.now.at) memory.old memory.new }
    {
        let words = self.words;
        self.each(
            memory,
            |level: &mut [u64]|
                requires { (length level.old ≡ 2 * words + 2) × (words < 2 ^ 27) }
                ensures { Filled words level.old level.new 0 }
            {
                level.copy_within(words + 1..2 * words + 1, 1);
            },
        );
    }

    /// Moves the bits of the planes into the order of the plane from word `selector` on, which stands before them: first
    /// those at its zero bits, then the others.
    #[tactic(auto, using(crate::proofs::Ends::ends_le))]
    pub(crate) fn partition(&self, memory: &mut [u64], selector: usize, zeros: usize)
        requires sizes { (selector + self.now.words ≤ self.now.at) × InReach self.now memory.old }
        requires count { zeros ≡ self.now.count - sum_to (bits_from memory.old selector) self.now.count }
        requires tails { Tails self.now.words self.now.bits self.now.count memory.old self.now.at }
        ensures routed { AllRouted (bits_from memory.old selector) self.now.words self.now.count self.now.bits memory.old memory.new self.now.at }
        ensures outside { Outside self.now.at (ends self.now.words self.now.bits self.now.at) memory.old memory.new }
    {
        self.wipe_rooms(memory);
        let (mut lo, mut hi) = first_places(zeros);
        // As it is: the memory is written in the loop, so the plane's words can't be lent to an iterator over it.
        for i in 0..self.words {
            let s = memory[selector + i];
            let set = set_bits(s);
            let low = Masks::leaving(s);
            let high = Masks::selecting(s);
            self.part_words(memory, i, lo, hi, &low, &high);
            lo += 64 - set;
            hi += set;
        }
        self.fill_planes(memory);
    }
}
