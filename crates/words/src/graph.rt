//! The plain data of a design: what the definitions of specs/ speak of.

/// The most nodes that a design may have.
pub const MAX_NODES: usize = 32;

/// The input's number as a source. Sources 0 to 31 are nodes.
pub const INPUT: usize = 32;

/// How many sources there are: every node, and the input.
pub const SOURCES: usize = 33;

/// One node: its operation, and by source the delay of the feed from there, `None` where that source does not feed it.
#[derive(Clone, Copy, PartialEq, Eq, Debug)]
pub struct Node {
    pub operation: u8,
    pub feeds: [Option<u8>; SOURCES],
}

/// Where the output is read: the node, and how long before.
#[derive(Clone, Copy, PartialEq, Eq, Debug)]
pub struct Output {
    pub node: usize,
    pub delay: u8,
}

/// A z-graph: the first `count` nodes, and the output. `Design` holds it to its ranges.
#[derive(Clone, Copy, PartialEq, Eq, Debug)]
pub struct Graph {
    pub count: usize,
    pub nodes: [Node; MAX_NODES],
    pub output: Output,
}
