//! What the simulator writes.

use crate::case::Case;
use crate::element::{Element, Shown};
use crate::rows::{fillers_from, read_row};
use anyhow::Context;
use bench::bench::Bench;
use cases::printing::Row;
use cells::library::CellLibrary;
use machine::simulator::simulate;
use std::alloc::Global;
use std::io;

/// Of a longer run only so many times are printed, the last ones.
const MAX_SHOWN: usize = 300;

/// How many fields a simulation has.
const FIELDS: usize = 4;

/// What a simulation is given, its rows as a line has them, and how long its buffers are.
#[derive(Drop)]
pub(crate) struct Simulation<'a> {
    bench: Bench,
    rest: &'a str,
    inputs: &'a str,
    history: usize,
    outputs: usize,
}

impl<'a> Simulation<'a> {
    /// Opens the bench of a case, then reads what the task has of its own.
    pub(crate) fn read(alloc: Global, case: Case<'a>) -> anyhow::Result<Simulation<'a>> {
        let bench = case.open_bench(alloc)?;
        let mut fields = case.own.splitn(FIELDS, ':');
        let mut field = || fields.next().context("a simulation has too few fields");
        Ok(Simulation {
            bench,
            rest: field()?,
            inputs: field()?,
            history: field()?.parse()?,
            outputs: field()?.parse()?,
        })
    }
}

/// The buffers after a run of a design with `count` nodes, as many times as there were inputs.
#[derive(Clone, Copy)]
struct Run<'a, E> {
    count: usize,
    times: usize,
    history: &'a [E],
    outputs: &'a [E],
}

impl<E: Element> Run<'_, E> {
    /// Prints the nodes' values at the last times, then the outputs.
    fn print_values<R: AllocGlobal + Print>(self, rt: &R) -> io::Result<()> {
        let hidden = self.times.saturating_sub(MAX_SHOWN);
        let history = self.history.chunks(self.count.max(1)).take(self.times);
        for values in history.skip(hidden) {
            let values: Vec<Shown<E>> = values.iter().copied().map(Shown).collect(rt.alloc())?;
            println!(rt; "{}", Row("v", &values))?;
        }
        let outputs = self.outputs.iter().copied().take(self.times);
        let outputs: Vec<Shown<E>> = outputs.skip(hidden).map(Shown).collect(rt.alloc())?;
        println!(rt; "{}", Row("out", &outputs))
    }

    /// Prints how many places that the run was not to write still have the filler.
    fn print_kept(self, rt: &impl Print) -> io::Result<()> {
        let history = fillers_from(self.history, self.count.saturating_mul(self.times));
        let outputs = fillers_from(self.outputs, self.times);
        println!(rt; "kept {history} {outputs}")
    }
}

/// Simulates on a library, and prints what comes of it.
pub(crate) fn print_simulation<R: AllocGlobal + Print, L: CellLibrary + Drop>(
    rt: &R,
    mut library: L,
    simulation: &Simulation<'_>,
) -> anyhow::Result<()>
where
    L::Elem: Element,
{
    let rest = read_row(rt.alloc(), simulation.rest)?;
    let inputs = read_row(rt.alloc(), simulation.inputs)?;
    let mut history = vec![in rt.alloc(); L::Elem::FILLER; simulation.history]?;
    let mut outputs = vec![in rt.alloc(); L::Elem::FILLER; simulation.outputs]?;
    let answer = simulate(
        &simulation.bench,
        &mut library,
        &rest,
        &inputs,
        &mut history,
        &mut outputs,
    );
    let run = Run {
        count: simulation.bench.design().count(),
        times: if answer.is_ok() { inputs.len() } else { 0 },
        history: &history,
        outputs: &outputs,
    };
    match answer {
        Ok(()) => run.print_values(rt)?,
        Err(fault) => println!(rt; "{fault}")?,
    }
    run.print_kept(rt)?;
    Ok(())
}
