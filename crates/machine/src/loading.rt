//! Loading a program: questions 1 to 5, 15 and 16.

ghost use Rattle.machine.specs.Loads.{Loads, LoadsBack};

use crate::checks::{check_lines, check_taps};
use crate::machine::Machine;
use crate::wiring::Wiring;
use words::faults::Fault;
use words::program_reader::read_program;

impl Machine {
    /// Loads a program from its words, at cycle 0: questions 1 to 5, 15 and 16.
    pub fn load(words: &[u32]) -> Result<Machine, Fault>
        ensures loads { Loads words.now result }
        ensures loads_back { LoadsBack words.now result }
    {
        let program = read_program(words)?;
        check_taps(words)?;
        check_lines(words)?;
        let wiring = Wiring::of(&program);
        Ok(Machine {
            program,
            wiring,
            cycle: 0,
        })
    }
}
