//! What a simulator fires at each time: the nodes in order, each with its taps.

ghost use Rattle.std.specs.Prelude.{◌<◌, ◌≤◌, ℕ, take, slice_index_or};
ghost use Rattle.std.proofs.Props.{props};
ghost use Rattle.words.specs.Designs.{feed_at};
ghost use Rattle.bench.specs.Orders.{Ranked};
ghost use Rattle.bench.specs.Retimings.{order, at_rest};
ghost use Rattle.machine.specs.declared.cell.Cell.{Cell};
ghost use Rattle.machine.specs.Plans.{Planned, Whole, Ready};

use crate::cell::Cell;
use bench::bench::Bench;
use words::design::Design;
use words::graph::{MAX_NODES, Node, SOURCES};
use words::program_table::Tap;

impl Cell {
    /// A node of a design, with its taps.
    pub(crate) fn of(design: &Design, node: usize) -> Cell
        requires { node < design.now.graph.count }
        ensures { Planned design.now.graph node result }
    {
        let Node { operation, feeds } = design.nodes()[node];
        let mut taps = [Tap::default(); SOURCES];
        let mut count = 0;
        for (source, feed) in feeds.iter().enumerate() {
            if let Some(delay) = *feed {
                let source = source as u8;
                let delay = u16::from(delay);
                taps[count] = Tap { source, delay };
                count += 1;
            }
        }
        Cell {
            node,
            operation,
            taps,
            count,
        }
    }
}

/// The nodes of a design in the order in which they fire: the first `count` of the table. Each is one of them, and its taps hear them or the
/// input. The cells past them are blank.
#[derive(Clone, Copy)]
pub struct Plan {
    pub cells: [Cell; MAX_NODES],
    pub count: usize,
    ghost few: { count ≤ 32 },
    ghost ready: { (k : ℕ) (d : Cell) → k < count → Ready count (slice_index_or cells k d) } by { Prim.hlevel props },
}

impl Plan {
    /// The nodes of a bench's design, in its own order.
    pub(crate) fn of(bench: &Bench) -> Plan
        ensures whole { Whole bench.now.design.graph (order bench.now.design.graph at_rest) (take result.count result.cells) }
        ensures ranked { Ranked bench.now.design.graph.count (feed_at bench.now.design.graph) (order bench.now.design.graph at_rest) }
    {
        let order = bench.source_order();
        let nodes = order.nodes();
        let mut cells = [Cell::default(); MAX_NODES];
        for (rank, node) in nodes.iter().enumerate() {
            cells[rank] = Cell::of(bench.design(), usize::from(*node));
        }
        Plan {
            cells,
            count: nodes.len(),
        }
    }
}
