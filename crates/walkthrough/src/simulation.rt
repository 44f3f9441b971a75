//! Design E's source on whole cells, simulated.

use crate::Stopped;
use bench::bench::Bench;
use examples::libraries::cells_of_e;
use machine::simulator::simulate;
use std::io;

/// The nodes of design E.
const NODES: usize = 2;

/// The times that are simulated.
const TIMES: usize = 3;

/// The values of the nodes at one time, and the output.
fn print_time(rt: &impl Print, time: usize, values: &[i32], output: i32) -> io::Result<()> {
    print!(rt; "  time {time}:")?;
    for (node, value) in values.iter().enumerate() {
        print!(rt; " v{node} = {value},")?;
    }
    println!(rt; " y = {output}")
}

/// Simulates the source of design E, from rests of 0 on inputs of 1, and prints what it gives.
pub(crate) fn simulate_aloud(rt: &impl Print, bench: &Bench) -> Result<(), Stopped> {
    let mut history = [0; NODES * TIMES];
    let mut outputs = [0; TIMES];
    simulate(
        bench,
        &mut cells_of_e(),
        &[0; NODES + 1],
        &[1; TIMES],
        &mut history,
        &mut outputs,
    )?;
    println!(rt; "its source on whole cells, all rests 0, inputs 1, 1, 1:")?;
    for (time, (values, output)) in history.chunks(NODES).zip(outputs).enumerate() {
        print_time(rt, time, values, output)?;
    }
    Ok(())
}
