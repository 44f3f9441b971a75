//! Starting a machine: questions 17 and 18.

ghost use Rattle.std.specs.Prelude.{◌≡◌, ◌+◌, ◌≤◌, length, OnOk};
ghost use Rattle.bench.specs.Buffers.{overlaid};
ghost use Rattle.bench.specs.Refusals.{unless, unless_kept};
ghost use Rattle.machine.specs.Arrays.{array_in};
ghost use Rattle.machine.specs.Buffers.{rest_in};
ghost use Rattle.machine.specs.Refusals.{start_fault};
ghost use Rattle.machine.specs.Starting.{registers_at_rest, start_refusal};
ghost use Rattle.machine.specs.Steps.{needed, registers_in, AtRest};

use crate::line::fill;
use crate::machine::Machine;
use words::faults::{Fault, MachineQuestion, Question};

/// Questions 17 and 18, of the lengths that are given and the registers needed.
#[tactic(auto, unfolding(crate::specs::Refusals::start_fault))]
fn ask_lengths(count: usize, needed: usize, rest: usize, registers: usize) -> Result<(), Fault>
    requires { count ≤ 32 }
    ensures answer { result ≡ unless (start_fault count needed rest registers) tt }
    ensures rest { OnOk result (rest ≡ count + 1) }
    ensures registers { OnOk result (needed ≤ registers) }
{
    if rest != count + 1 {
        return Err(MachineQuestion::RestRow.refused(rest, count + 1));
    }
    if registers < needed {
        return Err(MachineQuestion::Registers.refused(registers, needed));
    }
    Ok(())
}

impl Machine {
    /// Fills every line and every present value from a rest row.
    fn fill<E: Copy>(&self, rest: &[E], registers: &mut [E])
        requires rest { length rest.now ≡ self.now.program.table.count + 1 }
        requires room { needed self.now.program.table.count self.now.program.table.lines.items ≤ length registers.old }
        ensures { registers.new ≡ overlaid registers.old 0 (registers_at_rest self.now.program.table rest.now) }
    {
        for (line, value) in rest.iter().enumerate() {
            let start = self.line_start(line);
            let end = self.line_start(line + 1);
            fill(&mut registers[start..end], *value);
        }
        let count = self.program.count();
        let present = self.line_start(count + 1);
        registers[present..present + count].copy_from_slice(&rest[..count]);
    }

    /// Fills the registers from a rest row, and begins at cycle 0: questions 17 and 18. A refused call changes nothing.
    pub fn start<E: Copy>(&mut self, rest: &[E], registers: &mut [E]) -> Result<(), Fault>
        ensures answer { result ≡ unless (start_refusal self.old.program.table rest.now registers.old) tt }
        ensures registers { registers.new ≡ unless_kept (start_refusal self.old.program.table rest.now registers.old) (overlaid registers.old 0 (registers_at_rest self.old.program.table rest.now)) registers.old }
        ensures cycle { self.new.cycle ≡ unless_kept (start_refusal self.old.program.table rest.now registers.old) 0 self.old.cycle }
        ensures program { self.new.program ≡ self.old.program }

        // Each line and each present value then holds its source's rest value.
        ensures rest { OnOk result ((d : E) → AtRest (array_in self.old.program.table) self.old.program.table.lines.items (rest_in self.old.program.table.count rest.now d) (registers_in self.old.program.table.count self.old.program.table.lines.items registers.new d)) }
    {
        ask_lengths(
            self.program.count(),
            self.registers(),
            rest.len(),
            registers.len(),
        )?;
        self.fill(rest, registers);
        self.cycle = 0;
        Ok(())
    }
}
