//! An array program whose numbers are in range.

ghost use Rattle.std.specs.Prelude.{◌≡◌};
ghost use Rattle.words.specs.ProgramTables.{ProgramInRange};

use crate::program_table::{Cell, ProgramTable, Tap};

/// An array program: 1 to 32 nodes and a factor from 1 to 64, a line for each node and for the input, a cell for each node, and an output.
#[derive(Drop)]
pub struct Program {
    pub(crate) table: ProgramTable,
    ghost in_range: { ∥ ProgramInRange table ∥₁ },
}

impl Program {
    /// How many nodes it has.
    pub fn count(&self) -> usize
        ensures { result ≡ self.now.table.count }
    {
        self.table.count
    }

    /// K: by how much the array is slowed.
    pub fn factor(&self) -> u32
        ensures { result ≡ self.now.table.factor }
    {
        self.table.factor
    }

    /// The length of each source's line: the nodes in order, then the input.
    pub fn lines(&self) -> &[u16]
        ensures { result.now ≡ self.now.table.lines.items }
    {
        self.table.lines.as_slice()
    }

    /// Its cells, in the order in which they fire.
    pub fn cells(&self) -> &[Cell]
        ensures { result.now ≡ self.now.table.cells.items }
    {
        self.table.cells.as_slice()
    }

    /// Where its output is read: the node, and how many cycles before.
    pub fn output(&self) -> Tap
        ensures { result ≡ self.now.table.output }
    {
        self.table.output
    }
}
