//! Design E the whole way in one call: opened, settled, timed, emitted, loaded, started and stepped.

use crate::Stopped;
use bench::calls::Call;
use channels::events::Event;
use channels::whole::run_channels;
use examples::libraries::cells_of_e;
use std::io;
use words::design::Design;
use words::graph::MAX_NODES;

/// What goes in, a cycle after another: those of even cycles are one channel's, those of odd cycles another's.
const INPUTS: [i32; 7] = [1, 5, 1, 0, 1, 0, 0];

/// The registers of the program: lines of 2, 1 and 0 places, and two present values.
const REGISTERS: usize = 5;

/// A start from rests of 0, and a step on each input.
fn events() -> [Event<'static, i32>; INPUTS.len() + 1] {
    let mut events = [Event::Start { rest: &[0; 3] }; INPUTS.len() + 1];
    for (event, input) in events[1..].iter_mut().zip(INPUTS) {
        *event = Event::Step { input };
    }
    events
}

/// Prints what each step puts out.
fn print_steps(rt: &impl Print, answers: &[Option<i32>]) -> io::Result<()> {
    for (cycle, (input, answer)) in INPUTS.iter().zip(answers).enumerate() {
        match answer {
            Some(output) => println!(rt; "  cycle {cycle}: on {input} it puts out {output}")?,
            None => println!(rt; "  cycle {cycle}: refused")?,
        }
    }
    Ok(())
}

/// Takes the design the whole way on whole cells, from rests of 0, and prints what its machine puts out.
pub(crate) fn run_aloud(rt: &impl Print, design: &Design) -> Result<(), Stopped> {
    let mut answers = [None; INPUTS.len() + 1];
    let (factor, latency) = run_channels(
        design,
        &mut [0; MAX_NODES],
        &[Call::Settle],
        &mut [0; 16],
        &mut cells_of_e(),
        &events(),
        &mut [0; REGISTERS],
        &mut answers,
    )?;
    println!(rt;
        "its machine on whole cells, settled, K = {factor}, L = {latency}, started from rests of 0:"
    )?;
    print_steps(rt, &answers[1..])?;
    Ok(())
}
