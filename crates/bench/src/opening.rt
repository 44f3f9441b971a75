//! Opening a bench on a design: questions 6 and 7.

ghost use Rattle.std.specs.Prelude.{◌≡◌, ◌<◌, ◌≤◌, false, length, drop, if◌then◌else◌, Some, None};
ghost use Rattle.bench.specs.Buffers.{overlaid};
ghost use Rattle.bench.specs.First.{first};
ghost use Rattle.bench.specs.Firing.{has, next};
ghost use Rattle.bench.specs.Opening.{Opened};
ghost use Rattle.bench.specs.Retimings.{waits};
ghost use Rattle.bench.specs.Walks.{Closed};

use crate::bench::Bench;
use crate::order::Order;
use crate::retimed::Retimed;
use crate::retiming::Retiming;
use words::design::Design;
use words::faults::{DesignQuestion, Fault, Question};

impl Order {
    /// The lowest of so many nodes that is not listed.
    fn unlisted(&self, count: usize) -> Option<usize>
        ensures { result ≡ first (λ i. (if has self.now i then None else Some i)) count }
    {
        (0..count).find(|&node| self.rank_of(node).is_none())
    }

    /// Copies the nodes from a rank on to a buffer's front; how many there are.
    fn copy_from(&self, rank: usize, buffer: &mut [u8]) -> usize
        requires rank { rank < length self.now }
        requires room { length self.now ≤ length buffer.old }
        ensures count { result ≡ length (drop rank self.now) }
        ensures buffer { buffer.new ≡ overlaid buffer.old 0 (drop rank self.now) }
    {
        let nodes = &self.nodes()[rank..];
        buffer[..nodes.len()].copy_from_slice(nodes);
        nodes.len()
    }
}

impl Retimed<'_> {
    /// From an unlisted node on to the one that holds it, and on, until one is met twice: the path, and that node.
    fn walk(&self, order: &Order, start: usize) -> (Order, usize)
        requires stuck { next self.now.design.now.graph.count (waits self.now.design.now.graph self.now.retiming.now) order.now ≡ None }
        requires start { start < self.now.design.now.graph.count }
        requires unlisted { has order.now start ≡ false }
        ensures { Closed self.now.design.now.graph.count (waits self.now.design.now.graph self.now.retiming.now) result.0 result.1 }
    {
        let mut path = Order::empty();
        let mut node = start;
        while path.rank_of(node).is_none() {
            path.list(node);
            node = self.held_by(order, node).unwrap();
        }
        (path, node)
    }
}

impl Bench {
    /// Opens a bench on a design: K is 1 and no node lags. A design with a cycle of zero delays is refused, with one such cycle at the buffer's front.
    pub fn open(design: &Design, cycle: &mut [u8]) -> Result<Bench, Fault>
        ensures { Opened design.now cycle.old cycle.new result }
    {
        if cycle.len() < design.count() {
            return Err(DesignQuestion::CycleBuffer.refused(cycle.len(), design.count()));
        }
        let retiming = Retiming::resting();
        let at_rest = Retimed::at_rest(design, &retiming);
        let order = at_rest.firing();
        let Some(start) = order.unlisted(design.count()) else {
            return Ok(Bench {
                design: *design,
                retiming,
            });
        };
        let (path, node) = at_rest.walk(&order, start);
        let rank = path.rank_of(node).unwrap();
        Err(DesignQuestion::WellDefined.refused(path.copy_from(usize::from(rank), cycle), 0))
    }
}
