//! Reads cases of the simulator and of the machine, one a line, and prints what comes of each.
#![tactic(auto)]

mod case;
mod element;
mod rows;
mod running;
mod simulation;

use crate::case::Case;
use crate::element::Element;
use crate::running::print_run;
use crate::simulation::{Simulation, print_simulation};
use anyhow::bail;
use cells::bubble::Bubble;
use cells::compare::CompareCells;
use cells::library::CellLibrary;
use std::alloc::Global;
use std::io::{BufRead, BufReader};

/// What a case asks for. A simulation is read before any cells are, the program of a run after them.
#[derive(Drop)]
enum Task<'a> {
    Simulate(Simulation<'a>),
    Run(Case<'a>),
}

impl<'a> Task<'a> {
    fn read(alloc: Global, case: Case<'a>) -> anyhow::Result<Task<'a>> {
        match case.task {
            "simulate" => Ok(Task::Simulate(Simulation::read(alloc, case)?)),
            _ => Ok(Task::Run(case)),
        }
    }
}

/// Does a task on a library.
fn print_task<R: AllocGlobal + Print, L: CellLibrary + Drop>(
    rt: &R,
    library: L,
    task: &Task<'_>,
) -> anyhow::Result<()>
where
    L::Elem: Element,
{
    match task {
        Task::Simulate(simulation) => print_simulation(rt, library, simulation),
        Task::Run(case) => print_run(rt, library, &case.program_words(rt.alloc())?, *case),
    }
}

/// Does a task on the bubble layer over a library.
fn print_bubbles<R: AllocGlobal + Print, L: CellLibrary + Drop>(
    rt: &R,
    below: L,
    task: &Task<'_>,
) -> anyhow::Result<()>
where
    L::Elem: Element,
{
    print_task(rt, Bubble { below }, task)
}

/// Does the task of a case on the cells that it names.
fn print_answer<R: AllocGlobal + Print>(rt: &R, case: Case<'_>) -> anyhow::Result<()> {
    let task = &Task::read(rt.alloc(), case)?;
    match case.cells {
        "whole" => print_task(rt, case.summing_cells::<i32>()?, task),
        "float" => print_task(rt, case.summing_cells::<f32>()?, task),
        "compare" => print_task(rt, CompareCells, task),
        "bubble whole" => print_bubbles(rt, case.summing_cells::<i32>()?, task),
        "bubble float" => print_bubbles(rt, case.summing_cells::<f32>()?, task),
        "bubble compare" => print_bubbles(rt, CompareCells, task),
        _ => bail!("a line has no such cells"),
    }
}

fn main(rt: HostRuntime) -> anyhow::Result<()> {
    let lines = BufReader::new(rt.alloc(), rt.reader())?.lines(rt.alloc());
    for (number, line) in lines.enumerate() {
        let line = line?;
        println!(rt; "case {number}")?;
        print_answer(&rt, Case::try_from(line.as_str())?)?;
    }
    Ok(())
}
