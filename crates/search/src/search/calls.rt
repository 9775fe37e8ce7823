// The calls of a search.
ghost use Rattle.std.specs.Prelude.{◌≡◌, ◌+◌, ◌^◌, ◌<◌, ◌≤◌, true, false, List, length, Some, None, Ok, Err, nat_le, nat_lt};
ghost use Rattle.search.specs.Answers.{Told, advance_answer, open_refusal, take_answer, taken, try_answer};
ghost use Rattle.search.specs.Of.{AfterAdvance, AfterTry, Follows, LawAt, Opened, Ran, view_of};
ghost use Rattle.search.specs.Purposes.{advances};
ghost use Rattle.search.specs.Play.{AdvanceSplits, Fair, advance_ok, halfway, tried, trial_at, try_makes};
ghost use Rattle.search.specs.Reports.{report_of, state_of};
ghost use Rattle.search.specs.Trails.{Trail};
ghost use Rattle.search.specs.Trial.{succeeds};

use crate::call::Call;
use crate::purpose::Purpose;
use crate::report::{Report, State};
use crate::search::Search;
use crate::trial::trial;
use cost::Cost;
use refusal::{Declined, Refusal};

/// The standing figure after a trial at c succeeded: what its cut costs, which may be below c.
fn standing_at(c: u64, cost: u64) -> u64
    requires { cost ≤ c }
    ensures { result ≡ cost }
{
    let _ = c;
    cost
}

/// The floor after a trial at c failed.
fn raised(c: u64) -> u64
    requires { c < 2 ^ 60 }
    ensures { result ≡ c + 1 }
{
    c + 1
}

/// Whether an advance by n is taken.
fn advances_by(n: u32) -> bool
    ensures { result ≡ advance_ok n }
{
    1 <= n && n <= 64
}

/// How many trials an advance makes at most, of which so many are asked.
fn most_trials(asked: u32) -> u32
    ensures { result ≡ asked }
{
    asked
}

impl<C: Cost> Search<C> {
    /// Why no search is opened with so many blocks and this ceiling, if there is a reason.
    pub fn refusal(blocks: u32, ceiling: u64) -> Option<Refusal>
        ensures { result ≡ open_refusal blocks ceiling }
    {
        if blocks == 0 || blocks > 1024 {
            Some(Refusal::Blocks)
        } else if ceiling >= 1 << 60 {
            Some(Refusal::Ceiling)
        } else {
            None
        }
    }

    /// A new search, where nothing speaks against it.
    pub(crate) fn begin(cost: C, blocks: u32, ceiling: u64) -> Search<C>
        requires { open_refusal blocks ceiling ≡ None }
        ensures { Opened C.price cost blocks ceiling result }
    {
        Search {
            cost,
            blocks,
            ceiling,
            floor: 0,
            figure: ceiling + 1,
            standing: None,
            advance_trials: 0,
            try_trials: 0,
            questions: 0,
        }
    }

    /// A new search over a cost, for so many blocks and up to this ceiling; declined, it gives the cost back.
    pub fn open(cost: C, blocks: u32, ceiling: u64) -> Result<Search<C>, Declined<C>>
        ensures { elim result [ Ok s ↦ Opened C.price cost blocks ceiling s | Err e ↦ (open_refusal blocks ceiling ≡ Some e.reason) × (e.brought ≡ cost) ] }
    {
        match Search::<C>::refusal(blocks, ceiling) {
            Some(reason) => Err(Declined {
                reason,
                brought: cost,
            }),
            None => Ok(Search::begin(cost, blocks, ceiling)),
        }
    }

    /// Ends the search, in any state, and gives its cost back.
    pub fn close(self) -> C
        ensures { result ≡ self.cost }
    {
        let Search {
            cost,
            blocks: _,
            ceiling: _,
            floor: _,
            figure: _,
            standing: _,
            advance_trials: _,
            try_trials: _,
            questions: _,
        } = self;
        cost
    }

    /// Open while the floor is below the standing figure; then settled where a cut stands, and missing where none does.
    fn state(&self) -> State
        ensures { result ≡ state_of (view_of self.now) }
    {
        if self.is_open() {
            State::Open
        } else if self.standing.is_some() {
            State::Settled
        } else {
            State::Missing
        }
    }

    /// What the search has come to.
    pub fn tell(&self) -> Report
        ensures exact { result ≡ report_of (view_of self.now) }
        ensures law { LawAt C.price self.now result }
    {
        Report {
            state: self.state(),
            floor: self.floor,
            figure: self.figure,
            advance_trials: self.advance_trials,
            try_trials: self.try_trials,
            questions: self.questions,
        }
    }

    /// Whether the floor is below the standing figure, so that another trial tells more.
    fn is_open(&self) -> bool
        ensures { result ≡ nat_lt self.now.floor self.now.figure }
    {
        self.floor < self.figure
    }

    /// Half the sum of the floor and the standing figure, rounded down.
    fn half(&self) -> u64
        ensures { result ≡ halfway (view_of self.now) }
    {
        (self.floor + self.figure) / 2
    }

    /// One trial at c over all the rows, for the one count or the other: whether it succeeded.
    fn one_trial(&mut self, c: u64, purpose: Purpose) -> bool
        requires above { self.old.floor ≤ c }
        requires under { c < self.old.figure }
        requires fair { Fair (advances purpose) (view_of self.old) c }
        ensures exact { view_of self.new ≡ tried (C.price self.old.cost) self.old.blocks c (advances purpose) (view_of self.old) }
        ensures answer { result ≡ succeeds (C.price self.old.cost).rows self.old.blocks (trial_at (C.price self.old.cost) self.old.blocks c) }
        ensures kept { (C.price self.new.cost ≡ C.price self.old.cost) × (self.new.blocks ≡ self.old.blocks) × (self.new.ceiling ≡ self.old.ceiling) }
        ensures puts { Trail C.put self.old.cost (trial_at (C.price self.old.cost) self.old.blocks c).questions self.new.cost }
    {
        let mut boundaries = [0; 1025];
        let rows = self.cost.row_count();
        let outcome = trial(&mut self.cost, &mut boundaries, self.blocks, rows, c);
        let (advances, tries) = purpose.counts();
        self.advance_trials += advances;
        self.try_trials += tries;
        match outcome {
            Ok((figure, asked)) => {
                self.questions += asked;
                self.figure = standing_at(c, figure);
                self.standing = Some(boundaries);
                true
            }
            Err(asked) => {
                self.questions += asked;
                self.floor = raised(c);
                false
            }
        }
    }

    /// Up to n trials, from 1 to 64, each halfway between the floor and the standing figure, while they differ; the
    /// report.
    pub fn advance(&mut self, n: u32) -> Result<Report, Refusal>
        ensures follows { Follows C.price C.put (Call.Advance n) self.old self.new }
        ensures answer { result ≡ advance_answer (C.price self.old.cost) self.old.blocks n (view_of self.old) }
        ensures after { AfterAdvance C.price self.old self.new result }
        ensures splits { AdvanceSplits (C.price self.old.cost) self.old.blocks (view_of self.old) }
    {
        if !advances_by(n) {
            return Err(Refusal::Count);
        }
        for _ in 0..most_trials(n) {
            if !self.is_open() {
                break;
            }
            let c = self.half();
            let _ = self.one_trial(c, Purpose::Advance);
        }
        Ok(self.tell())
    }

    /// Whether c is above the ceiling.
    fn too_high(&self, c: u64) -> bool
        ensures { result ≡ nat_lt self.now.ceiling c }
    {
        c > self.ceiling
    }

    /// Whether c is below the floor, so that no cut costs c or less.
    fn too_low(&self, c: u64) -> bool
        ensures { result ≡ nat_lt c self.now.floor }
    {
        c < self.floor
    }

    /// Whether c is at or above the standing figure, so that the standing cut costs c or less.
    fn reached(&self, c: u64) -> bool
        ensures { result ≡ nat_le self.now.figure c }
    {
        c >= self.figure
    }

    /// Whether another try trial may be made.
    fn tries_left(&self) -> bool
        ensures { result ≡ nat_lt self.now.try_trials 65535 }
    {
        self.try_trials < 65535
    }

    /// Whether some cut costs c or less, and the report: known, or found by a trial at c.
    pub fn try_at(&mut self, c: u64) -> Result<(bool, Report), Refusal>
        ensures follows { Follows C.price C.put (Call.Try c) self.old self.new }
        ensures answer { result ≡ try_answer (C.price self.old.cost) self.old.blocks self.old.ceiling c (view_of self.old) }
        ensures after { AfterTry C.price self.old self.new result }
        ensures unchanged { try_makes self.old.ceiling (view_of self.old) c ≡ false → self.new ≡ self.old }
        ensures told { (calls : List Call) → Ran C.price self.old calls → Told (C.price self.old.cost) self.old.blocks c result }
    {
        if self.too_high(c) {
            return Err(Refusal::Ceiling);
        }
        if self.too_low(c) {
            return Ok((false, self.tell()));
        }
        if self.reached(c) {
            return Ok((true, self.tell()));
        }
        if !self.tries_left() {
            return Err(Refusal::Count);
        }
        let succeeded = self.one_trial(c, Purpose::Try);
        Ok((succeeded, self.tell()))
    }

    /// The boundaries of the standing cut, to the front of `out`; later places keep what they held.
    pub fn take(&mut self, out: &mut [u32]) -> Result<(), Refusal>
        ensures unchanged { self.new ≡ self.old }
        ensures answer { result ≡ take_answer self.old.blocks (view_of self.old) (length out.old) }
        ensures written { out.new ≡ taken self.old.blocks (view_of self.old) out.old }
    {
        let Some(boundaries) = &self.standing else {
            return Err(Refusal::NoCut);
        };
        let places = self.blocks as usize + 1;
        if out.len() < places {
            return Err(Refusal::Short);
        }
        out[0..places].copy_from_slice(&boundaries[0..places]);
        Ok(())
    }
}
