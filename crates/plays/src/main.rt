//! Plays runs of the search over machines of unequal speed: one run a line of standard input, and its answers one a line of
//! standard output.
#![tactic(auto)]

mod answers;
mod player;
mod script;

use answers::Refused;
use anyhow::Context;
use machines::Machines;
use player::Player;
use script::Script;
use search::search::Search;
use std::io::{BufRead, BufReader};

/// Plays one run.
fn play(rt: &HostRuntime, script: Script) -> anyhow::Result<()> {
    let Script {
        weights,
        starts,
        slowness,
        blocks,
        ceiling,
        calls,
    } = script;
    let machines = Machines::new(weights, starts, slowness).context("too many rows")?;
    match Search::open(machines, blocks, ceiling) {
        Ok(search) => {
            let mut player = Player { rt, search, blocks };
            let shown = player.play(calls.as_slice());
            drop(player.end());
            shown?;
        }
        Err(declined) => print!(rt; "{}", Refused(declined.reason))?,
    }
    Ok(println!(rt)?)
}

fn main(rt: HostRuntime) -> anyhow::Result<()> {
    let heap = rt.alloc();
    for line in BufReader::new(heap, rt.stdin())?.lines(heap) {
        let line = line?;
        play(&rt, Script::read(heap, line.as_str())?)?;
    }
    Ok(())
}
