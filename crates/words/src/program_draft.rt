//! An array program as far as its words have been read.

use crate::program_table::ProgramTable;

/// What the reader keeps: the program so far, the least source that the next tap may have, and whether the output was read.
#[derive(Drop)]
pub struct ProgramDraft {
    pub table: ProgramTable,
    pub least: usize,
    pub complete: bool,
}
