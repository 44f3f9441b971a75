//! The plain data of a plan: what the definitions of specs/ speak of.

use words::graph::SOURCES;
use words::program_table::Tap;

/// A node, its operation and its taps, at the design's own delays: the first `count` of the row. The rest of the row is blank, so that cells
/// with equal taps are equal.
#[derive(Clone, Copy, Debug, Default, PartialEq)]
pub struct Cell {
    pub node: usize,
    pub operation: u8,
    pub taps: [Tap; SOURCES],
    pub count: usize,
}
