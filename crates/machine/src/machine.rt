//! A machine: a program that it runs, and the cycle that it comes to next.

ghost use Rattle.std.specs.Prelude.{◌≡◌, ◌+◌, ◌^◌, ◌<◌, ◌≤◌, sum, take};
ghost use Rattle.machine.specs.Arrays.{Ordered, array_in, rank_in};
ghost use Rattle.machine.specs.Steps.{Reached, needed};
ghost use Rattle.machine.specs.Wirings.{wiring_of};

use crate::wiring::Wiring;
use words::program::Program;

/// A loaded machine. Each tap of delay 0 from a node reads an earlier cell, and each line is long enough. Its registers are lent to each
/// call that reads or writes them.
#[derive(Drop)]
pub struct Machine {
    pub(crate) program: Program,
    pub(crate) wiring: Wiring,
    pub(crate) cycle: u32,
    ghost wired: { wiring ≡ wiring_of program.table },
    ghost ordered: { ∥ Ordered (array_in program.table) (rank_in program.table) ∥₁ },
    ghost reached: { ∥ Reached (array_in program.table) program.table.lines.items ∥₁ },
}

impl Machine {
    /// The program that it runs.
    pub fn program(&self) -> &Program
        ensures { result.now ≡ self.now.program }
    {
        &self.program
    }

    /// How many cycles have passed since it was loaded or last started.
    pub fn cycle(&self) -> u32
        ensures { result ≡ self.now.cycle }
    {
        self.cycle
    }

    /// Where line k begins in the registers; after the last line, where the present values do.
    pub(crate) fn line_start(&self, k: usize) -> usize
        requires { k ≤ self.now.program.table.count + 1 }
        ensures start { result ≡ sum (take k self.now.program.table.lines.items) }
        ensures fits { result < 2 ^ 32 }
    {
        self.wiring.starts[k] as usize
    }

    /// How many registers it needs.
    pub fn registers(&self) -> usize
        ensures { result ≡ needed self.now.program.table.count self.now.program.table.lines.items }
    {
        let count = self.program.count();
        self.line_start(count + 1) + count
    }
}
