//! The verdict: whether a bench is systolic, and if not where it first is not.

ghost use Rattle.std.specs.Prelude.{◌≡◌, ◌<◌, ◌++◌, Some, IsOk};
ghost use Rattle.bench.specs.First.{first};
ghost use Rattle.bench.specs.Retimings.{current_delay};
ghost use Rattle.bench.specs.Verdicts.{hears, c1_at, c2_at, c1_breach, c2_breach, verdict, C1Holds, C2Holds, breach_text};

use crate::bench::Bench;
use std::error::Error;
use std::fmt;
use words::graph::SOURCES;

/// Why a bench is not systolic.
#[derive(Clone, Copy, PartialEq, Eq, Debug)]
pub enum Breach {
    /// A node hears another at delay 0.
    C1 {
        node: usize,
        source: usize,
    },
    /// Two nodes hear one source at the same delay.
    C2 {
        source: usize,
        smaller: usize,
        larger: usize,
    },
}

impl fmt::Display for Breach {
    ghost output = { λ b. Some (breach_text b) };

    fn fmt<W: fmt::Write>(&self, f: &mut fmt::Formatter<W>) -> fmt::Result {
        match *self {
            Breach::C1 { node, source } => write!(f, "C1 {node} {source}"),
            Breach::C2 {
                source,
                smaller,
                larger,
            } => write!(f, "C2 {source} {smaller} {larger}"),
        }
    }
}

impl Error for Breach {}

impl Bench {
    /// Whether a node hears a source at that current delay.
    fn hears_at(&self, node: usize, source: usize, delay: u16) -> bool
        ensures { result ≡ hears (current_delay self.now.design.graph self.now.retiming node source) delay }
    {
        self.delay(node, source) == Some(delay)
    }

    /// The lowest breach of C1, by node and then source.
    fn c1_breach(&self) -> Option<Breach>
        ensures { result ≡ c1_breach self.now.design.graph self.now.retiming }
    {
        let count = self.design.count();
        (0..count).find_map(|node| {
            (0..count).find_map(|source| self
                .hears_at(node, source, 0)
                .then_some(Breach::C1 { node, source }))
        })
    }

    /// C2 at one node that hears a source: the lowest node above it that hears the source at the same delay.
    fn c2_of_node(&self, source: usize, smaller: usize) -> Option<Breach>
        ensures { result ≡ first (c2_at self.now.design.graph self.now.retiming source smaller) self.now.design.graph.count }
    {
        let delay = self.delay(smaller, source)?;
        (smaller + 1..self.design.count()).find_map(|larger| self
            .hears_at(larger, source, delay)
            .then_some(Breach::C2 {
                source,
                smaller,
                larger,
            }))
    }

    /// The lowest breach of C2, by source and then the pair's smaller and larger node.
    fn c2_breach(&self) -> Option<Breach>
        ensures { result ≡ c2_breach self.now.design.graph self.now.retiming }
    {
        let count = self.design.count();
        (0..SOURCES).find_map(|source| (0..count).find_map(|smaller| self.c2_of_node(
            source, smaller,
        )))
    }

    /// `Ok` where it is systolic, or the lowest breach: C1 before C2.
    pub fn verdict(&self) -> Result<(), Breach>
        ensures answer { result ≡ verdict self.now.design.graph self.now.retiming }
        ensures holds { IsOk result → C1Holds self.now.design.graph self.now.retiming × C2Holds self.now.design.graph self.now.retiming }
        ensures systolic { C1Holds self.now.design.graph self.now.retiming → C2Holds self.now.design.graph self.now.retiming → IsOk result }
    {
        self.c1_breach()
            .or_else(|| self.c2_breach())
            .map_or(Ok(()), Err)
    }
}
