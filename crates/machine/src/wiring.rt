//! The plain data of a loaded machine: what the definitions of specs/ speak of.

use arrayvec::ArrayVec;
use words::graph::{MAX_NODES, SOURCES};

/// One more place than there are lines: where each begins, and where the last ends.
pub const STARTS: usize = SOURCES + 1;

/// The most taps that a program has.
pub const MAX_WIRES: usize = MAX_NODES * SOURCES;

/// What a tap reads: a register, or the input element where there is none; and the source that it hears there.
#[derive(Clone, Copy, Debug, Default)]
pub struct Wire {
    pub source: u8,
    pub register: Option<u32>,
}

/// A cell: the register of its node's present value, its operation and lag, and which of the wires are its taps.
#[derive(Clone, Copy, Debug, Default)]
pub struct WiredCell {
    pub present: u32,
    pub operation: u8,
    pub lag: u16,
    pub first: usize,
    pub end: usize,
}

/// Where a program's registers stand in their row: where each line begins, and after the last line the present values; the cells in
/// the order in which they fire, with their taps in one row; and the register that the output is read from.
#[derive(Debug, Drop)]
pub struct Wiring {
    pub starts: ArrayVec<u32, STARTS>,
    pub cells: ArrayVec<WiredCell, MAX_NODES>,
    pub wires: ArrayVec<Wire, MAX_WIRES>,
    pub output: u32,
}
