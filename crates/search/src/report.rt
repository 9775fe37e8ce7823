// What a search tells of itself.
ghost use Rattle.search.specs.States.{state_number};
ghost use Rattle.std.specs.Prelude.{◌≡◌};

/// Where a search stands: open, settled with a cut that costs least, or over with no cut within its ceiling.
#[derive(Clone, Copy, PartialEq, Eq, Debug)]
pub enum State {
    Open = 1,
    Settled = 2,
    Missing = 3,
}

impl State {
    /// The number by which programs tell the states apart.
    pub fn number(self) -> u8
        ensures { result ≡ state_number self }
    {
        self as u8
    }
}

/// What a search tells: its state, the floor, the standing figure, and how many trials and questions it made.
#[derive(Clone, Copy, PartialEq, Eq, Debug)]
pub struct Report {
    pub state: State,
    pub floor: u64,
    pub figure: u64,
    pub advance_trials: u32,
    pub try_trials: u32,
    pub questions: u32,
}
