ghost use Rattle.std.specs.Prelude.{◌≡◌, ℕ, ◌+◌, ◌*◌, ◌<◌, length, true, false, MatchBool};
ghost use Rattle.levels.specs.Layouts.{InReach};
ghost use Rattle.levels.specs.Planes.{Outside};
ghost use Rattle.levels.specs.Rooms.{Each, Made, OneOf, level_words as LevelWords};
ghost use Rattle.levels.specs.Spans.{ends};
ghost use Rattle.std.specs.Fn.{FnReturnsAt};

use super::span::Span;

impl Span {
    /// Does a step in each level.
    pub(crate) fn each<F: Fn(&mut [u64])>(&self, memory: &mut [u64], step: F)
        requires reach { InReach self.now memory.old }
        requires ready { (level : _) → length level.now ≡ 2 * self.now.words + 2 → F.pre step level }
        ensures made { Each self.now.words self.now.bits (λ A. Made (F.post step) (LevelWords self.now.words memory.old A) (LevelWords self.now.words memory.new A)) self.now.at }
        ensures outside { Outside self.now.at (ends self.now.words self.now.bits self.now.at) memory.old memory.new }
    {
        let width = self.width();
        // As it is: after a loop over `chunks_exact_mut` the proof knows nothing of what the steps wrote.
        for k in 0..self.bits {
            let at = self.level(k);
            step(&mut memory[at..at + width]);
        }
    }

    /// Whether a test holds of each level.
    pub(crate) fn all<F: Fn(&[u64]) -> bool>(&self, memory: &[u64], test: F) -> bool
        requires reach { InReach self.now memory.now }
        requires ready { (level : _) → length level.now ≡ 2 * self.now.words + 2 → F.pre test level }
        ensures { MatchBool result (Each self.now.words self.now.bits (λ A. FnReturnsAt F.Fn test (LevelWords self.now.words memory.now A) true) self.now.at) (OneOf self.now.words self.now.bits (λ A. FnReturnsAt F.Fn test (LevelWords self.now.words memory.now A) false) self.now.at) }
    {
        let width = self.width();
        // As it is: `chunks_exact(width).all(test)` got no proof that a test with a `requires` may be called at each chunk.
        for k in 0..self.bits {
            let at = self.level(k);
            if !test(&memory[at..at + width]) {
                return false;
            }
        }
        true
    }
}
