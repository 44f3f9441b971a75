//! The bench: a well-defined design with its retiming.

ghost use Rattle.std.specs.Prelude.{◌≡◌, ◌<◌, length, if◌then◌else◌, Some, None, nat_lt};
ghost use Rattle.bench.specs.Cycles.{WellDefined};
ghost use Rattle.bench.specs.Retimings.{Sound, order, at_rest, current_delay, output_delay, latency, lag_at};

use crate::retimed::Retimed;
use crate::retiming::Retiming;
use words::design::Design;

/// A design on the bench: K and the lags that it was given.
#[derive(Clone, Copy)]
pub struct Bench {
    pub(crate) design: Design,
    pub(crate) retiming: Retiming,
    ghost sound: { ∥ Sound design.graph retiming ∥₁ },
    ghost ordered: { length (order design.graph at_rest) ≡ design.graph.count },
}

impl Bench {
    /// The design under its retiming.
    pub(crate) fn retimed(&self) -> Retimed<'_>
        ensures design { result.design.now ≡ self.now.design }
        ensures retiming { result.retiming.now ≡ self.now.retiming }
    {
        Retimed {
            design: &self.design,
            retiming: &self.retiming,
        }
    }

    /// The design it was opened on, which is well-defined.
    pub fn design(&self) -> &Design
        ensures design { result.now ≡ self.now.design }
        ensures well_defined { WellDefined result.now.graph }
    {
        &self.design
    }

    /// K and L: by how much the array is slowed, and how many cycles late its output is.
    pub fn timing(&self) -> (u32, u32)
        ensures { result ≡ (self.now.retiming.factor, latency self.now.design.graph self.now.retiming) }
    {
        let output = self.design.output();
        (self.retiming.factor, self.retiming.lag(output.node))
    }

    /// By how many cycles a node lags, `None` where there is no such node.
    pub fn lag_of(&self, node: usize) -> Option<u16>
        ensures { result ≡ (if nat_lt node self.now.design.graph.count then Some (lag_at self.now.retiming node) else None) }
    {
        let records = &self.retiming.records[..self.design.count()];
        records.get(node).map(|record| record.lag)
    }

    /// The current delay of a node's feed from a source, `None` where that source does not feed it.
    pub fn delay(&self, node: usize, source: usize) -> Option<u16>
        ensures { result ≡ current_delay self.now.design.graph self.now.retiming node source }
    {
        self.retimed().delay(node, source)
    }

    /// The output's current delay.
    pub fn output_delay(&self) -> u16
        ensures { result ≡ output_delay self.now.design.graph self.now.retiming }
    {
        self.retiming.slowed(self.design.output().delay) as u16
    }
}
