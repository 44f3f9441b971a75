//! A case, as a line has it.

use crate::element::Element;
use crate::rows::read_weights;
use anyhow::{Context, bail, ensure};
use bench::bench::Bench;
use bench::program::MAX_PROGRAM_WORDS;
use cases::designs::{parse_design, parse_words};
use cases::moves::Move;
use cells::summing::{Summand, SummingCells};
use std::alloc::Global;
use words::graph::MAX_NODES;

/// How many fields a line has, those of the task taken as one.
const FIELDS: usize = 6;

/// How many a line of a simulation has, those of its own among them.
const SIMULATION_FIELDS: usize = 9;

/// The fields of a line, which colons part. What the task has of its own comes last.
#[derive(Clone, Copy)]
pub(crate) struct Case<'a> {
    pub(crate) task: &'a str,
    words: &'a str,
    moves: &'a str,
    pub(crate) cells: &'a str,
    weights: &'a str,
    pub(crate) own: &'a str,
}

impl<'a> TryFrom<&'a str> for Case<'a> {
    type Error = anyhow::Error;

    fn try_from(line: &'a str) -> anyhow::Result<Case<'a>> {
        ensure!(
            !line.starts_with("simulate:") || line.split(':').count() == SIMULATION_FIELDS,
            "a line has not nine fields"
        );
        let mut fields = line.splitn(FIELDS, ':');
        let mut field = || fields.next().context("a line has too few fields");
        Ok(Case {
            task: field()?,
            words: field()?,
            moves: field()?,
            cells: field()?,
            weights: field()?,
            own: field()?,
        })
    }
}

impl Case<'_> {
    /// Opens the design and makes the moves, all of which are to be accepted.
    pub(crate) fn open_bench(self, alloc: Global) -> anyhow::Result<Bench> {
        let design = parse_design(alloc, self.words)?;
        let mut bench = Bench::open(&design, &mut [0; MAX_NODES])
            .ok()
            .context("a design is not opened")?;
        for text in self.moves.split_terminator(';') {
            let answer = bench.make(&Move::parse(alloc, text)?.call());
            answer.ok().context("a move is refused")?;
        }
        Ok(bench)
    }

    /// The array program that the bench emits.
    fn emit_program(self, alloc: Global) -> anyhow::Result<Vec<u32>> {
        let mut words = [0; MAX_PROGRAM_WORDS];
        let count = self
            .open_bench(alloc)?
            .emit(&mut words)
            .ok()
            .context("a program is not emitted")?;
        Ok(words[..count].to_vec(alloc)?)
    }

    /// The words that are run: those of the program that the bench emits, or those of the line as they stand, a design's or not.
    pub(crate) fn program_words(self, alloc: Global) -> anyhow::Result<Vec<u32>> {
        match self.task {
            "emit" => self.emit_program(alloc),
            "load" => parse_words(alloc, self.words),
            _ => bail!("a line has no such task"),
        }
    }

    /// Cells that sum, with the table of the line.
    pub(crate) fn summing_cells<N: Element + Summand>(self) -> anyhow::Result<SummingCells<N>> {
        let weights = read_weights(self.weights)?;
        Ok(SummingCells { weights })
    }
}
