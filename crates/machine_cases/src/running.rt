//! What a machine answers, and what it leaves in its registers.

use crate::case::Case;
use crate::element::{Element, Shown};
use crate::rows::read_row;
use anyhow::{Context, bail};
use cases::printing::Row;
use cells::library::CellLibrary;
use machine::machine::Machine;
use std::io;

/// The first registers of a row, so many or all.
fn first<E>(registers: &mut [E], count: usize) -> &mut [E] {
    let count = count.min(registers.len());
    &mut registers[..count]
}

/// A loaded machine with its cells and registers. The first `lent` registers are lent to each call.
#[derive(Drop)]
struct Run<L, E> {
    machine: Machine,
    library: L,
    registers: Vec<E>,
    lent: usize,
}

impl<E: Element, L: CellLibrary<Elem = E> + Drop> Run<L, E> {
    /// Starts the machine from a rest row, and prints the answer.
    fn start<R: AllocGlobal + Print>(&mut self, rt: &R, rest: &str) -> anyhow::Result<()> {
        let rest = read_row::<E>(rt.alloc(), rest)?;
        let lent = first(&mut self.registers, self.lent);
        match self.machine.start(&rest, lent) {
            Ok(()) => println!(rt; "ok")?,
            Err(fault) => println!(rt; "{fault}")?,
        }
        Ok(())
    }

    /// Steps the machine on each of some inputs, and prints each answer.
    fn step<R: AllocGlobal + Print>(&mut self, rt: &R, inputs: &str) -> anyhow::Result<()> {
        let lent = first(&mut self.registers, self.lent);
        for input in read_row::<E>(rt.alloc(), inputs)? {
            match self.machine.step(&mut self.library, input, lent) {
                Ok(element) => println!(rt; "{}", Shown(element))?,
                Err(fault) => println!(rt; "{fault}")?,
            }
        }
        Ok(())
    }

    /// Does what one event of a line says.
    fn perform<R: AllocGlobal + Print>(&mut self, rt: &R, event: &str) -> anyhow::Result<()> {
        match event.split_once(' ').unwrap_or((event, "")) {
            ("lend", count) => self.lent = count.parse()?,
            ("start", rest) => self.start(rt, rest)?,
            ("step", inputs) => self.step(rt, inputs)?,
            _ => bail!("a line has no such event"),
        }
        Ok(())
    }

    /// Prints the cycle that is next, and all registers.
    fn print_registers<R: AllocGlobal + Print>(&self, rt: &R) -> io::Result<()> {
        let cycle = self.machine.cycle();
        println!(rt; "cycle {cycle}")?;
        let registers = self.registers.iter().copied().map(Shown);
        let registers: Vec<Shown<E>> = registers.collect(rt.alloc())?;
        println!(rt; "{}", Row("registers", &registers))
    }

    /// Does what the events of a line say, and prints how the machine then stands.
    fn perform_all<R: AllocGlobal + Print>(mut self, rt: &R, events: &str) -> anyhow::Result<()> {
        let needed = self.machine.registers();
        println!(rt; "loaded {needed}")?;
        for event in events.split_terminator(';') {
            self.perform(rt, event)?;
        }
        self.print_registers(rt)?;
        Ok(())
    }
}

/// Loads a program, runs it on a library as the case says, and prints what comes of it.
pub(crate) fn print_run<R: AllocGlobal + Print, L: CellLibrary + Drop>(
    rt: &R,
    library: L,
    words: &[u32],
    case: Case<'_>,
) -> anyhow::Result<()>
where
    L::Elem: Element,
{
    let (count, events) = case.own.split_once(':').context("a run has no events")?;
    let lent = count.parse()?;
    match Machine::load(words) {
        Ok(machine) => {
            let registers = vec![in rt.alloc(); L::Elem::FILLER; lent]?;
            let run = Run {
                machine,
                library,
                registers,
                lent,
            };
            run.perform_all(rt, events)
        }
        Err(fault) => Ok(println!(rt; "{fault}")?),
    }
}
