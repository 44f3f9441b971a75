//! Design E, from its words to a design and back, settled on the bench, emitted, loaded, simulated and run on its machine: each action, and its answer.
#![tactic(auto)]

mod notation;
mod reading;
mod running;
mod settling;
mod simulation;

use crate::reading::{read_aloud, round_trip};
use crate::running::run_aloud;
use crate::settling::settle_aloud;
use crate::simulation::simulate_aloud;
use examples::designs::DESIGN_E;
use std::io;
use thiserror::Error;
use words::faults::Fault;

/// Why the walkthrough ends early.
#[derive(Debug, Drop, Error)]
enum Stopped {
    #[error("refused")]
    Refused(#[from] Fault),
    #[error(transparent)]
    Stream(#[from] io::Error),
}

fn run(rt: &impl Print) -> Result<(), Stopped> {
    let design = read_aloud(rt, &DESIGN_E)?;
    round_trip(rt, &design)?;
    let bench = settle_aloud(rt, &design)?;
    simulate_aloud(rt, &bench)?;
    run_aloud(rt, &design)
}

/// Walks through, and prints a refusal's line.
fn main(rt: HostRuntime) -> anyhow::Result<()> {
    let answer = run(&rt);
    if let Err(Stopped::Refused(fault)) = &answer {
        println!(rt; "{fault}")?;
    }
    Ok(answer?)
}
