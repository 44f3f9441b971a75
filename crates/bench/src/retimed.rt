//! A design under a retiming: its current delays.

ghost use Rattle.std.specs.Prelude.{◌≡◌, ◌*◌, ◌^◌, ◌<◌, ◌≤◌, Some};
ghost use Rattle.words.specs.Designs.{feed_at};
ghost use Rattle.bench.specs.Retimings.{Sound, waits, at_rest, ahead, delay_of, current_delay, lag_at, source_lag};
ghost use Rattle.words.specs.ProgramTables.{max_factor};

use crate::retiming::{NodeRecord, Retiming};
use words::design::Design;
use words::graph::MAX_NODES;

/// A design under a retiming that keeps its lags and delays in range.
#[derive(Clone, Copy)]
pub(crate) struct Retimed<'a> {
    pub(crate) design: &'a Design,
    pub(crate) retiming: &'a Retiming,
    ghost sound: { ∥ Sound design.now.graph retiming.now ∥₁ },
}

impl<'a> Retimed<'a> {
    /// A design at rest.
    pub(crate) fn at_rest(design: &'a Design, retiming: &'a Retiming) -> Retimed<'a>
        requires { retiming.now ≡ at_rest }
        ensures design { result.design.now ≡ design.now }
        ensures retiming { result.retiming.now ≡ at_rest }
    {
        Retimed { design, retiming }
    }

    /// The current delay of a node's feed from a source, `None` where that source does not feed it.
    pub(crate) fn delay(&self, node: usize, source: usize) -> Option<u16>
        ensures { result ≡ current_delay self.now.design.now.graph self.now.retiming.now node source }
    {
        let delay = self.design.feed(node, source)?;
        Some(self.delay_of(node, source, delay))
    }

    /// The current delay of a feed whose delay in the design is known.
    pub(crate) fn delay_of(&self, node: usize, source: usize, delay: u8) -> u16
        requires { feed_at self.now.design.now.graph node source ≡ Some delay }
        ensures { result ≡ delay_of self.now.retiming.now node source delay }
    {
        let ahead = self.retiming.ahead(node, delay);
        (ahead - self.retiming.lag(source)) as u16
    }

    /// Whether a node hears another at current delay 0.
    pub(crate) fn waits(&self, node: usize, source: usize) -> bool
        requires { source < self.now.design.now.graph.count }
        ensures { result ≡ waits self.now.design.now.graph self.now.retiming.now node source }
    {
        match self.design.feed(node, source) {
            Some(delay) => self.retiming.ahead(node, delay) == self.retiming.lag(source),
            None => false,
        }
    }
}

impl Retiming {
    /// K is 1 and no node lags.
    pub(crate) fn resting() -> Retiming
        ensures { result ≡ at_rest }
    {
        Retiming {
            factor: 1,
            records: [NodeRecord { lag: 0 }; MAX_NODES],
        }
    }

    /// The lag of a source. The input has none, and no record.
    pub(crate) fn lag(&self, source: usize) -> u32
        ensures node { result ≡ lag_at self.now source }
        ensures source { result ≡ source_lag self.now source }
        ensures short { result < 2 ^ 16 }
    {
        self.records
            .get(source)
            .map_or(0, |record| u32::from(record.lag))
    }

    /// A design's delay at K.
    pub(crate) fn slowed(&self, delay: u8) -> u32
        requires { self.now.factor ≤ max_factor }
        ensures { result ≡ self.now.factor * delay }
    {
        self.factor * u32::from(delay)
    }

    /// The current delay at a node of a feed with that delay, from a source that does not lag.
    pub(crate) fn ahead(&self, node: usize, delay: u8) -> u32
        requires { self.now.factor ≤ max_factor }
        ensures { result ≡ ahead self.now node delay }
    {
        self.slowed(delay) + self.lag(node)
    }
}
