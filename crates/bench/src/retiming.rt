//! The plain data of a retiming: what the definitions of specs/ speak of.

use words::graph::MAX_NODES;

/// What the bench keeps of one node: by how many cycles it lags.
#[derive(Clone, Copy, PartialEq, Eq, Debug)]
pub struct NodeRecord {
    pub lag: u16,
}

/// How a design is slowed and lagged: K, and a record for each node. `Bench` holds it to its ranges.
#[derive(Clone, Copy, PartialEq, Eq, Debug)]
pub struct Retiming {
    pub factor: u32,
    pub records: [NodeRecord; MAX_NODES],
}
