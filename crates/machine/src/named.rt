//! The plain data of question 15: what the definitions of specs/ speak of.

use words::graph::MAX_NODES;

/// By node, whether its cell was named so far, and whether before the last cell.
#[derive(Clone, Copy)]
pub struct Named {
    pub all: [bool; MAX_NODES],
    pub earlier: [bool; MAX_NODES],
}
