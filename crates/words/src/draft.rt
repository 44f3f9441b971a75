//! A design as far as its words have been read.

use crate::graph::{Graph, Output};

/// What the reader keeps: the design so far, how many of its nodes were seen, the least source that the next feed may have, and the
/// output once it was read.
#[derive(Clone, Copy)]
pub struct Draft {
    pub graph: Graph,
    pub seen: usize,
    pub least: usize,
    pub output: Option<Output>,
}
