// Whole runs, played through the calls of real searches.
ghost use Rattle.std.specs.Prelude.{◌≡◌, min, Some, None, Ok, Err};
ghost use Rattle.search.specs.Answers.{open_refusal, take_answer};
ghost use Rattle.search.specs.Compared.{BothLaws, Returned};
ghost use Rattle.search.specs.Of.{Follows, view_of};
ghost use Rattle.search.specs.Play.{start};
ghost use Rattle.search.specs.Runs.{answer_of, compared_of, placed, played_of, run_asks};
ghost use Rattle.search.specs.Trails.{Trail};

use crate::call::{Answer, Call};
use crate::played::{Played, Run, Unopened};
use crate::search::Search;
use cost::Cost;
use refusal::Refusal;

/// A take into so many places, of which 1,025 count at most.
fn take_into<C: Cost>(search: &mut Search<C>, places: u32) -> Result<(), Refusal>
    ensures unchanged { search.new ≡ search.old }
    ensures answer { result ≡ take_answer search.old.blocks (view_of search.old) (min places 1025) }
{
    let mut out = [0; 1025];
    let places = places.min(1025) as usize;
    search.take(&mut out[0..places])
}

/// The standing cut, its boundaries in front of 1,025 places, if one stands.
fn standing_cut<C: Cost>(search: &mut Search<C>) -> Option<[u32; 1025]>
    ensures unchanged { search.new ≡ search.old }
    ensures cut { result ≡ placed search.old.blocks (view_of search.old) }
{
    let mut out = [0; 1025];
    search.take(&mut out).ok()?;
    Some(out)
}

/// One call of a run.
fn play_one<C: Cost>(search: &mut Search<C>, call: Call) -> Answer
    ensures follows { Follows C.price C.put call search.old search.new }
    ensures answer { result ≡ answer_of (C.price search.old.cost) search.old.blocks search.old.ceiling call (view_of search.old) }
{
    // As it is: calls are data, over whose lists the law of runs is stated.
    match call {
        Call::Advance(n) => Answer::Advanced(search.advance(n)),
        Call::Try(c) => Answer::Tried(search.try_at(c)),
        Call::Take(places) => Answer::Taken(take_into(search, places)),
        Call::Tell => Answer::Told(search.tell()),
    }
}

/// A run to be played: over a cost, up to a ceiling, by these calls.
pub struct Planned<'a, C> {
    pub cost: C,
    pub ceiling: u64,
    pub calls: &'a [Call],
}

impl<C> Planned<'_, C> {
    /// The cost of a run that is not played.
    fn into_cost(self) -> C
        ensures { result ≡ self.entry.cost }
    {
        let Planned {
            cost,
            ceiling: _,
            calls: _,
        } = self;
        cost
    }
}

/// A run of which the search can be opened: what it comes to, and the cost back.
fn run_through<C: Cost>(planned: Planned<C>, blocks: u32) -> (Played, C)
    requires { open_refusal blocks planned.ceiling ≡ None }
    ensures exact { result.0 ≡ played_of (C.price planned.entry.cost) blocks planned.entry.ceiling planned.entry.calls.now }
    ensures same { C.price result.1 ≡ C.price planned.entry.cost }
    ensures puts { Trail C.put planned.entry.cost (run_asks (C.price planned.entry.cost) blocks planned.entry.ceiling planned.entry.calls.now (start planned.entry.ceiling)) result.1 }
{
    let Planned {
        cost,
        ceiling,
        calls,
    } = planned;
    let mut search = Search::begin(cost, blocks, ceiling);
    let mut last = None;
    for call in calls {
        last = Some(play_one(&mut search, *call));
    }
    let report = search.tell();
    let cut = standing_cut(&mut search);
    (Played { report, cut, last }, search.close())
}

/// Two runs of which the searches can be opened: what they come to, and the costs back.
fn both_runs<C: Cost, D: Cost>(
    blocks: u32,
    first: Planned<C>,
    second: Planned<D>,
) -> (Played, Played, C, D)
    requires first_opens { open_refusal blocks first.ceiling ≡ None }
    requires second_opens { open_refusal blocks second.ceiling ≡ None }
    ensures law { BothLaws (C.Cost.price first.entry.cost) (D.Cost.price second.entry.cost) blocks first.entry.ceiling first.entry.calls.now second.entry.ceiling second.entry.calls.now (Ok (result.0, result.1)) }
    ensures exact { Ok (result.0, result.1) ≡ compared_of (C.Cost.price first.entry.cost) (D.Cost.price second.entry.cost) blocks first.entry.ceiling first.entry.calls.now second.entry.ceiling second.entry.calls.now }
    ensures first_back { Returned C.Cost.price C.Cost.put blocks first.entry.ceiling first.entry.calls.now first.entry.cost result.2 (Ok (result.0, result.1)) }
    ensures second_back { Returned D.Cost.price D.Cost.put blocks second.entry.ceiling second.entry.calls.now second.entry.cost result.3 (Ok (result.0, result.1)) }
{
    let (one, first) = run_through(first, blocks);
    let (two, second) = run_through(second, blocks);
    (one, two, first, second)
}

/// Two runs over as many blocks. Both openings are tested before either runs; then each list of calls is played through
/// a real search, and the law of runs holds of both and of the pair.
pub fn compare<C: Cost, D: Cost>(
    blocks: u32,
    first: Planned<C>,
    second: Planned<D>,
) -> (Result<(Played, Played), Unopened>, C, D)
    ensures exact { result.0 ≡ compared_of (C.Cost.price first.entry.cost) (D.Cost.price second.entry.cost) blocks first.entry.ceiling first.entry.calls.now second.entry.ceiling second.entry.calls.now }
    ensures law { BothLaws (C.Cost.price first.entry.cost) (D.Cost.price second.entry.cost) blocks first.entry.ceiling first.entry.calls.now second.entry.ceiling second.entry.calls.now result.0 }
    ensures first_back { Returned C.Cost.price C.Cost.put blocks first.entry.ceiling first.entry.calls.now first.entry.cost result.1 result.0 }
    ensures second_back { Returned D.Cost.price D.Cost.put blocks second.entry.ceiling second.entry.calls.now second.entry.cost result.2 result.0 }
{
    if let Some(reason) = Search::<C>::refusal(blocks, first.ceiling) {
        let run = Run::First;
        let unopened = Err(Unopened { run, reason });
        return (unopened, first.into_cost(), second.into_cost());
    }
    if let Some(reason) = Search::<D>::refusal(blocks, second.ceiling) {
        let run = Run::Second;
        let unopened = Err(Unopened { run, reason });
        return (unopened, first.into_cost(), second.into_cost());
    }
    let (one, two, first, second) = both_runs(blocks, first, second);
    (Ok((one, two)), first, second)
}
