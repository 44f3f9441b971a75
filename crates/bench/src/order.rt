//! A list of nodes, as the firing order is one.

ghost use Rattle.std.specs.Prelude.{◌≡◌, ◌<◌, false, [], ◌∷◌, ◌++◌, length};
ghost use Rattle.bench.specs.Firing.{has};
ghost use Rattle.bench.specs.Orders.{rank_of};

use std::marker::Model;
use words::graph::MAX_NODES;

/// Nodes in the order in which they were listed, and by node its place in the list.
#[derive(Clone, Copy)]
pub struct Order {
    nodes: [u8; MAX_NODES],
    ranks: [Option<u8>; MAX_NODES],
    count: usize,
}

impl Model for Order {
    ghost use Rattle.std.specs.Prelude.{ℕ, ◌-◌, ◌++◌, List, length, take, replicate};
    ghost use Rattle.bench.specs.Orders.{Kept, ranks_of, kept_nodes, kept_ranks, kept_count};

    ghost Value = { List ℕ };

    ghost view = { λ o. take o.count o.nodes };

    ghost invariant = { λ o. Kept o.nodes o.ranks o.count };

    ghost inverse = { λ l. record { nodes = l ++ replicate (32 - length l) 0; ranks = ranks_of l; count = length l } };

    ghost inverse_ok = { λ o k i. record { nodes = kept_nodes o.nodes o.ranks o.count k i; ranks = kept_ranks o.nodes o.ranks o.count k i; count = kept_count o.nodes o.ranks o.count k i } };
}

impl Order {
    /// The nodes that are listed.
    pub fn nodes(&self) -> &[u8]
        ensures { result.now ≡ self.now }
    {
        &self.nodes[..self.count]
    }

    /// A node's place in the list, `None` while it is unlisted.
    pub fn rank_of(&self, node: usize) -> Option<u8>
        ensures { result ≡ rank_of self.now node }
    {
        *self.ranks.get(node)?
    }

    /// No node listed.
    pub(crate) fn empty() -> Order
        ensures { result ≡ [] }
    {
        Order {
            nodes: [0; MAX_NODES],
            ranks: [None; MAX_NODES],
            count: 0,
        }
    }

    /// Lists a node.
    pub(crate) fn list(&mut self, node: usize)
        requires room { length self.old < 32 }
        requires node { node < 32 }
        requires new { has self.old node ≡ false }
        ensures { self.new ≡ self.old ++ node ∷ [] }
    {
        self.nodes[self.count] = node as u8;
        self.ranks[node] = Some(self.count as u8);
        self.count += 1;
    }
}
