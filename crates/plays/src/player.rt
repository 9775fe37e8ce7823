//! A search that is played: calls are made, and their answers printed.
use super::answers::{Cut, Refused, Standing, Tried};
use cost::Cost;
use refusal::Refusal;
use search::call::Call;
use search::search::Search;
use std::fmt::Display;
use std::io;

/// Prints what was answered, or why it was refused.
fn show<A: Display + Drop>(rt: &HostRuntime, answer: Result<A, Refusal>) -> io::Result<()> {
    match answer {
        Ok(said) => print!(rt; "{said}"),
        Err(reason) => print!(rt; "{}", Refused(reason)),
    }
}

/// A search for so many blocks, and where its answers are printed.
pub struct Player<'a, C: Cost> {
    pub rt: &'a HostRuntime,
    pub search: Search<C>,
    pub blocks: u32,
}

impl<C: Cost> Player<'_, C> {
    /// Takes into so many places, and prints the boundaries.
    fn take(&mut self, places: u32) -> io::Result<()> {
        let mut out = [0u32; 1_025];
        let out = &mut out[..places.min(1_025) as usize];
        let taken = self.search.take(out);
        let count = out.len().min(self.blocks as usize + 1);
        show(self.rt, taken.map(|()| Cut(&out[..count])))
    }

    /// Makes one call, and prints its answer.
    fn call(&mut self, call: Call) -> io::Result<()> {
        // As it is: a call is data, read from a line.
        match call {
            Call::Advance(n) => show(self.rt, self.search.advance(n).map(Standing)),
            Call::Try(c) => show(self.rt, self.search.try_at(c).map(Tried::from)),
            Call::Take(places) => self.take(places),
            Call::Tell => print!(self.rt; "{}", Standing(self.search.tell())),
        }
    }

    /// Makes the calls one after another.
    pub fn play(&mut self, calls: &[Call]) -> io::Result<()> {
        let Some((first, rest)) = calls.split_first() else {
            return print!(self.rt; "nothing");
        };
        self.call(*first)?;
        for call in rest {
            print!(self.rt; " / ")?;
            self.call(*call)?;
        }
        Ok(())
    }

    /// Closes the search, and gives its cost back.
    pub fn end(self) -> C {
        let Player {
            rt: _,
            search,
            blocks: _,
        } = self;
        search.close()
    }
}
