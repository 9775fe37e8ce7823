//! The answers of calls, as they are printed.
use refusal::Refusal;
use search::report::{Report, State};
use std::fmt;

/// Where a search stands: the state, the floor, the figure and the three counts.
#[derive(Clone, Copy)]
pub struct Standing(pub Report);

impl fmt::Display for Standing {
    fn fmt<W: fmt::Write>(&self, f: &mut fmt::Formatter<W>) -> fmt::Result {
        let report = &self.0;
        let state = match report.state {
            State::Open => "open",
            State::Settled => "settled",
            State::Missing => "none",
        };
        write!(
            f,
            "{state} {} {} {} {} {}",
            report.floor, report.figure, report.advance_trials, report.try_trials, report.questions
        )
    }
}

/// Whether a try was granted, and where the search stands then.
#[derive(Clone, Copy)]
pub struct Tried {
    granted: bool,
    standing: Standing,
}

impl From<(bool, Report)> for Tried {
    fn from((granted, report): (bool, Report)) -> Tried {
        Tried {
            granted,
            standing: Standing(report),
        }
    }
}

impl fmt::Display for Tried {
    fn fmt<W: fmt::Write>(&self, f: &mut fmt::Formatter<W>) -> fmt::Result {
        let granted = if self.granted { "yes" } else { "no" };
        write!(f, "{granted} {}", self.standing)
    }
}

/// The boundaries of a cut, in front of places that were taken into.
#[derive(Clone, Copy)]
pub struct Cut<'a>(pub &'a [u32]);

impl fmt::Display for Cut<'_> {
    fn fmt<W: fmt::Write>(&self, f: &mut fmt::Formatter<W>) -> fmt::Result {
        f.write_str("cut")?;
        for boundary in self.0 {
            write!(f, " {boundary}")?;
        }
        Ok(())
    }
}

/// Why a call was refused, by its number.
#[derive(Clone, Copy)]
pub struct Refused(pub Refusal);

impl fmt::Display for Refused {
    fn fmt<W: fmt::Write>(&self, f: &mut fmt::Formatter<W>) -> fmt::Result {
        write!(f, "refused {}", self.0.number())
    }
}
