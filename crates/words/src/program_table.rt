//! The plain data of an array program: what the definitions of specs/ speak of.

use crate::graph::{MAX_NODES, SOURCES};
use arrayvec::ArrayVec;

/// The most that K may be.
pub const MAX_FACTOR: u32 = 64;

/// The longest lag.
pub const MAX_LAG: u32 = 4095;

/// The longest delay, and the longest line.
pub const MAX_DELAY: u32 = 4095;

/// What a cell or the output hears: a source, and how many cycles before.
#[derive(Clone, Copy, PartialEq, Eq, Debug, Default)]
pub struct Tap {
    pub source: u8,
    pub delay: u16,
}

/// A cell: its node, operation and lag, and its taps.
#[derive(Clone, PartialEq, Eq, Debug, Default, Drop)]
pub struct Cell {
    pub node: u8,
    pub operation: u8,
    pub lag: u16,
    pub taps: ArrayVec<Tap, SOURCES>,
}

/// An array program: the number of its nodes and K, the length of each source's line, the cells in the order in which they fire,
/// and where the output is read. `Program` holds it to its ranges.
#[derive(Clone, PartialEq, Eq, Debug, Drop)]
pub struct ProgramTable {
    pub count: usize,
    pub factor: u32,
    pub lines: ArrayVec<u16, SOURCES>,
    pub cells: ArrayVec<Cell, MAX_NODES>,
    pub output: Tap,
}
