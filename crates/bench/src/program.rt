//! The words of an array program.

use arrayvec::ArrayVec;
use words::graph::{MAX_NODES, SOURCES};

/// The longest program: a head, 33 lines, 32 cells with 33 taps each, the output and the end.
pub const MAX_PROGRAM_WORDS: usize = 1 + SOURCES + MAX_NODES * (1 + SOURCES) + 2;

/// The words of a program, as far as they are made.
pub(crate) type ProgramWords = ArrayVec<u32, MAX_PROGRAM_WORDS>;
