//! Question 11: is each delay to come in range?

ghost use Rattle.std.specs.Prelude.{◌≡◌, ◌<◌, ◌≤◌, Some};
ghost use Rattle.words.specs.ProgramTables.{max_factor};
ghost use Rattle.bench.specs.Moves.{feed_fault, node_fault, delays_fault};
ghost use Rattle.bench.specs.Refusals.{unless};

use crate::retiming::Retiming;
use words::design::Design;
use words::faults::{BenchQuestion, Fault, Question};
use words::graph::{INPUT, Node};
use words::program_table::MAX_DELAY;

/// What a rescaling makes of a retiming, before its delays are asked about.
#[derive(Clone, Copy)]
pub(crate) struct Moved {
    pub(crate) retiming: Retiming,
    ghost slow: { retiming.factor ≤ max_factor },
}

impl Moved {
    /// Whether the delay to come of one feed is in range.
    fn check_feed(&self, node: usize, source: usize, delay: u8) -> Result<(), Fault>
        requires { node < 32 }
        ensures { result ≡ unless (feed_fault self.now.retiming node source (Some delay)) tt }
    {
        let ahead = self.retiming.ahead(node, delay);
        let behind = self.retiming.lag(source);
        if behind <= ahead && ahead <= behind + MAX_DELAY {
            Ok(())
        } else {
            Err(BenchQuestion::Delay.refused(node, source))
        }
    }

    /// Whether the delays to come of one node's feeds are in range.
    fn check_node(&self, number: usize, node: &Node) -> Result<(), Fault>
        requires { number < 32 }
        ensures { result ≡ unless (node_fault self.now.retiming number node.now) tt }
    {
        for (source, feed) in node.feeds.iter().enumerate() {
            if let Some(delay) = *feed {
                self.check_feed(number, source, delay)?;
            }
        }
        Ok(())
    }

    /// Whether every delay to come is in range.
    pub(crate) fn check_delays(&self, design: &Design) -> Result<(), Fault>
        ensures { result ≡ unless (delays_fault design.now.graph self.now.retiming) tt }
    {
        for (number, node) in design.nodes().iter().enumerate() {
            self.check_node(number, node)?;
        }
        let output = design.output();
        if self.retiming.slowed(output.delay) > MAX_DELAY {
            return Err(BenchQuestion::Delay.refused(INPUT, output.node));
        }
        Ok(())
    }
}
