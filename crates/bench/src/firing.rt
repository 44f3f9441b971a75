//! The firing order: next is always the lowest-numbered unlisted node whose feeds of current delay 0 from nodes are all listed.

ghost use Rattle.std.specs.Prelude.{◌≡◌, ◌<◌, is_some};
ghost use Rattle.bench.specs.Firing.{held_by, ready, next};
ghost use Rattle.bench.specs.Orders.{Fires, Ranked};
ghost use Rattle.bench.specs.Retimings.{waits, order, at_rest};
ghost use Rattle.words.specs.Designs.{feed_at};

use crate::bench::Bench;
use crate::order::Order;
use crate::retimed::Retimed;
use crate::retiming::Retiming;

impl Retimed<'_> {
    /// The lowest unlisted node that a node hears at current delay 0.
    pub(crate) fn held_by(&self, order: &Order, node: usize) -> Option<usize>
        ensures { result ≡ held_by self.now.design.now.graph.count (waits self.now.design.now.graph self.now.retiming.now) order.now node }
    {
        (0..self.design.count()).find(|&source| order.rank_of(source).is_none()
            && self.waits(node, source))
    }

    /// Whether a node may be listed next: it is unlisted, and no unlisted node holds it.
    fn is_free(&self, order: &Order, node: usize) -> bool
        ensures { result ≡ is_some (ready self.now.design.now.graph.count (waits self.now.design.now.graph self.now.retiming.now) order.now node) }
    {
        order.rank_of(node).is_none() && self.held_by(order, node).is_none()
    }

    /// The node to be listed next, if there is one.
    fn next(&self, order: &Order) -> Option<usize>
        ensures { result ≡ next self.now.design.now.graph.count (waits self.now.design.now.graph self.now.retiming.now) order.now }
    {
        (0..self.design.count()).find(|&node| self.is_free(order, node))
    }

    /// The firing order. At rest the tests of K and of lags fall away where this is inlined.
    #[inline(always)]
    pub(crate) fn firing(&self) -> Order
        ensures { result ≡ order self.now.design.now.graph self.now.retiming.now }
    {
        let mut order = Order::empty();
        while let Some(node) = self.next(&order) {
            order.list(node);
        }
        order
    }
}

impl Bench {
    /// The firing order.
    pub fn order(&self) -> Order
        ensures listed { result ≡ order self.now.design.graph self.now.retiming }
        ensures fires { Fires self.now.design.graph self.now.retiming result }
    {
        self.retimed().firing()
    }

    /// The order of the design itself, whatever its bench was slowed and lagged by: by its own delays of 0.
    pub fn source_order(&self) -> Order
        ensures listed { result ≡ order self.now.design.graph at_rest }
        ensures ranked { Ranked self.now.design.graph.count (feed_at self.now.design.graph) result }
    {
        Retimed::at_rest(&self.design, &Retiming::resting()).firing()
    }
}
