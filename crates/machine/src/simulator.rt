//! The source simulator: the values of a design in time, whatever its bench was slowed and lagged by.

ghost use Rattle.std.specs.Prelude.{◌≡◌, ◌+◌, ◌*◌, ◌≤◌, OnOk};
ghost use Rattle.bench.specs.Refusals.{unless};
ghost use Rattle.machine.specs.Refusals.{simulate_fault};
ghost use Rattle.machine.specs.Simulation.{Simulates};

use crate::moment::Moment;
use crate::plan::Plan;
use bench::bench::Bench;
use cells::library::CellLibrary;
use words::faults::{Fault, MachineQuestion, Question};
use words::program_table::Tap;

/// The most times that are simulated.
pub const MAX_TIMES: usize = 65536;

/// Questions 17, 20, 21 and 22, of the lengths that are given for a design of `count` nodes.
#[tactic(auto, unfolding(crate::specs::Refusals::simulate_fault))]
fn ask_lengths(
    count: usize,
    rest: usize,
    times: usize,
    history: usize,
    outputs: usize,
) -> Result<(), Fault>
    requires { count ≤ 32 }
    ensures answer { result ≡ unless (simulate_fault count rest times history outputs) tt }
    ensures rest { OnOk result (rest ≡ count + 1) }
    ensures times { OnOk result (times ≤ 65536) }
    ensures history { OnOk result (count * times ≤ history) }
    ensures outputs { OnOk result (times ≤ outputs) }
{
    if rest != count + 1 {
        return Err(MachineQuestion::RestRow.refused(rest, count + 1));
    }
    if times > MAX_TIMES {
        return Err(MachineQuestion::Times.refused(times, MAX_TIMES));
    }
    if history < count * times {
        return Err(MachineQuestion::History.refused(history, count * times));
    }
    if outputs < times {
        return Err(MachineQuestion::Outputs.refused(outputs, times));
    }
    Ok(())
}

/// Writes node i's value at time t to place t × n + i of `history`, and the output at time t to place t of `outputs`, for each of the
/// inputs: questions 17, 20, 21 and 22. A refused call changes no row.
pub fn simulate<L: CellLibrary>(
    bench: &Bench,
    library: &mut L,
    rest: &[L::Elem],
    inputs: &[L::Elem],
    history: &mut [L::Elem],
    outputs: &mut [L::Elem],
) -> Result<(), Fault>
    ensures values { Simulates bench.now.design.graph (L.meaning library.old) rest.now inputs.now history.old history.new outputs.old outputs.new result }
    ensures same { L.meaning library.new ≡ L.meaning library.old }
{
    let design = bench.design();
    let count = design.count();
    ask_lengths(
        count,
        rest.len(),
        inputs.len(),
        history.len(),
        outputs.len(),
    )?;
    let plan = Plan::of(bench);
    let output = design.output();
    let tap = Tap {
        source: output.node as u8,
        delay: u16::from(output.delay),
    };
    for (time, place) in outputs[..inputs.len()].iter_mut().enumerate() {
        let moment = Moment {
            count,
            rest,
            inputs,
            time,
        };
        plan.fire(library, &moment, history);
        *place = moment.hears(history, tap);
    }
    Ok(())
}
