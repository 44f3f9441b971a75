//! A design: a z-graph whose numbers are in range.

ghost use Rattle.std.specs.Prelude.{◌≡◌, ◌<◌, ◌&&◌, length, take, if◌then◌else◌, Some, None, nat_lt};
ghost use Rattle.words.specs.Designs.{InRange, feed_at, node_at};
ghost use Rattle.words.specs.Encoding.{encoded};

use crate::graph::{Graph, Node, Output};

/// A filter design: 1 to 32 nodes, each with an operation and at most one feed from each source, and an output.
#[derive(Clone, Copy)]
pub struct Design {
    pub(crate) graph: Graph,
    pub(crate) size: usize,
    ghost sound: { ∥ InRange graph ∥₁ },
    ghost counted: { size ≡ length (encoded graph) },
}

impl Design {
    /// How many nodes it has.
    pub fn count(&self) -> usize
        ensures { result ≡ self.now.graph.count }
    {
        self.graph.count
    }

    /// How many words it has.
    pub fn size(&self) -> usize
        ensures { result ≡ length (encoded self.now.graph) }
    {
        self.size
    }

    /// Its nodes, in order.
    pub fn nodes(&self) -> &[Node]
        ensures { result.now ≡ take self.now.graph.count self.now.graph.nodes }
    {
        &self.graph.nodes[..self.graph.count]
    }

    /// The operation of a node, `None` where it has no such node.
    pub fn operation(&self, node: usize) -> Option<u8>
        ensures { result ≡ (if nat_lt node self.now.graph.count then Some (node_at self.now.graph node).operation else None) }
    {
        Some(self.nodes().get(node)?.operation)
    }

    /// The delay of a node's feed from a source, `None` where that source does not feed it.
    pub fn feed(&self, node: usize, source: usize) -> Option<u8>
        ensures { result ≡ feed_at self.now.graph node source }
    {
        *self.nodes().get(node)?.feeds.get(source)?
    }

    /// Where its output is read.
    pub fn output(&self) -> Output
        ensures { result ≡ self.now.graph.output }
    {
        self.graph.output
    }
}
