//! Stepping a machine: questions 18 and 19.

ghost use Rattle.std.specs.Prelude.{◌≡◌, ◌+◌, ◌<◌, ◌≤◌, length, map, OnOk};
ghost use Rattle.std.specs.List.{All};
ghost use Rattle.bench.specs.Refusals.{unless};
ghost use Rattle.cells.specs.Meaning.{applied};
ghost use Rattle.machine.specs.Fired.{CellsFired};
ghost use Rattle.machine.specs.Machines.{StepAnswers};
ghost use Rattle.machine.specs.Moving.{LinesMoved};
ghost use Rattle.machine.specs.Reading.{register_value, wire_operand, WireInRow};
ghost use Rattle.machine.specs.Refusals.{step_fault, max_cycles};
ghost use Rattle.machine.specs.Steps.{needed};

use crate::line::shift;
use crate::machine::Machine;
use crate::wiring::Wire;
use cells::library::CellLibrary;
use words::faults::{Fault, MachineQuestion, Question};

/// How many cycles a machine steps after a start.
const MAX_CYCLES: u32 = 1_073_741_824;

impl Wire {
    /// What it brings: the value of its register, or the input element.
    fn value<E: Copy>(self, input: E, registers: &[E]) -> E
        requires { WireInRow (length registers.now) self }
        ensures { (d : E) → result ≡ register_value input registers.now d self.register }
    {
        match self.register {
            Some(register) => registers[register as usize],
            None => input,
        }
    }
}

/// An operation applied to what some wires bring.
fn compute<L: CellLibrary>(
    library: &mut L,
    operation: u8,
    wires: &[Wire],
    input: L::Elem,
    registers: &[L::Elem],
) -> L::Elem
    requires { All (WireInRow (length registers.now)) wires.now }
    ensures value { (d : L.Elem) → result ≡ applied (L.meaning library.old) operation (map (wire_operand input registers.now d) wires.now) }
    ensures same { L.meaning library.new ≡ L.meaning library.old }
{
    let mut sum = library.first(operation);
    for wire in wires {
        let operand = wire.value(input, registers);
        sum = library.next(operation, wire.source, sum, operand);
    }
    library.element(operation, sum)
}

impl Machine {
    /// Questions 18 and 19, of the registers that are given and the cycle.
    #[tactic(auto, unfolding(crate::specs::Refusals::step_fault))]
    fn ask_step(&self, registers: usize) -> Result<(), Fault>
        ensures answer { result ≡ unless (step_fault (needed self.now.program.table.count self.now.program.table.lines.items) registers self.now.cycle) tt }
        ensures registers { OnOk result (needed self.now.program.table.count self.now.program.table.lines.items ≤ registers) }
        ensures cycle { OnOk result (self.now.cycle < max_cycles) }
    {
        let needed = self.registers();
        if registers < needed {
            return Err(MachineQuestion::Registers.refused(registers, needed));
        }
        if self.cycle >= MAX_CYCLES {
            return Err(MachineQuestion::Cycle.refused(self.cycle as usize, 0));
        }
        Ok(())
    }

    /// Fires the cells in turn. One whose lag is above the cycle holds its present value.
    fn fire<L: CellLibrary>(&self, library: &mut L, input: L::Elem, registers: &mut [L::Elem])
        requires room { needed self.now.program.table.count self.now.program.table.lines.items ≤ length registers.old }
        ensures long { length registers.new ≡ length registers.old }
        ensures fired { (d : L.Elem) → CellsFired self.now.program.table (L.meaning library.old) self.now.cycle input d registers.old registers.new self.now.program.table.count }
        ensures same { L.meaning library.new ≡ L.meaning library.old }
    {
        for cell in self.wiring.cells.iter() {
            if self.cycle >= u32::from(cell.lag) {
                let wires = &self.wiring.wires[cell.first..cell.end];
                let value = compute(library, cell.operation, wires, input, registers);
                registers[cell.present as usize] = value;
            }
        }
    }

    /// Moves every line on by one place. To a node's line comes its present value, and to the input's the input element.
    fn move_lines<E: Copy>(&self, input: E, registers: &mut [E])
        requires room { needed self.now.program.table.count self.now.program.table.lines.items ≤ length registers.old }
        ensures long { length registers.new ≡ length registers.old }
        ensures moved { (d : E) → LinesMoved self.now.program.table.count self.now.program.table.lines.items input d registers.old registers.new (self.now.program.table.count + 1) }
    {
        let count = self.program.count();
        let present = self.line_start(count + 1);
        for line in 0..count + 1 {
            let newest = if line < count {
                registers[present + line]
            } else {
                input
            };
            let start = self.line_start(line);
            let end = self.line_start(line + 1);
            shift(&mut registers[start..end], newest);
        }
    }

    /// Steps: takes an input element and answers one, and comes to the next cycle. Questions 18 and 19; a refused call changes nothing.
    pub fn step<L: CellLibrary>(
        &mut self,
        library: &mut L,
        input: L::Elem,
        registers: &mut [L::Elem],
    ) -> Result<L::Elem, Fault>
        ensures steps { StepAnswers self.old.program.table (L.meaning library.old) input registers.old registers.new self.old.cycle self.new.cycle result }
        ensures program { self.new.program ≡ self.old.program }
        ensures same { L.meaning library.new ≡ L.meaning library.old }
    {
        self.ask_step(registers.len())?;
        self.fire(library, input, registers);
        let output = registers[self.wiring.output as usize];
        self.move_lines(input, registers);
        self.cycle += 1;
        Ok(output)
    }
}
