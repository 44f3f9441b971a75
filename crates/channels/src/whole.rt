//! A design the whole way: from opening a bench on it to what its machine puts out.

ghost use Rattle.std.specs.Prelude.{◌≡◌, length};
ghost use Rattle.channels.specs.Events.{Happens, Ran, state};
ghost use Rattle.channels.specs.Whole.{Whole};

use crate::events::Event;
use bench::bench::Bench;
use bench::calls::Call;
use cells::library::CellLibrary;
use machine::machine::Machine;
use words::design::Design;
use words::faults::Fault;

/// Makes one start or step, and answers what it puts out, if it is an accepted step.
fn make<L: CellLibrary>(
    machine: &mut Machine,
    event: &Event<'_, L::Elem>,
    library: &mut L,
    registers: &mut [L::Elem],
) -> Option<L::Elem>
    ensures happens { Happens machine.old.program.table (L.meaning library.old) event.now (state machine.old.cycle registers.old) result (state machine.new.cycle registers.new) }
    ensures program { machine.new.program ≡ machine.old.program }
    ensures same { L.meaning library.new ≡ L.meaning library.old }
{
    match event {
        Event::Start { rest } => {
            let _ = machine.start(rest, registers);
            None
        }
        Event::Step { input } => machine.step(library, *input, registers).ok(),
    }
}

/// Makes starts and steps in turn, and writes the answer of each.
fn run<L: CellLibrary>(
    machine: &mut Machine,
    events: &[Event<'_, L::Elem>],
    library: &mut L,
    registers: &mut [L::Elem],
    answers: &mut [Option<L::Elem>],
)
    requires { length answers.old ≡ length events.now }
    ensures ran { Ran machine.old.program.table (L.meaning library.old) (state machine.old.cycle registers.old) events.now answers.new (state machine.new.cycle registers.new) }
    ensures same { L.meaning library.new ≡ L.meaning library.old }
{
    for (place, answer) in answers.iter_mut().enumerate() {
        *answer = make(machine, &events[place], library, registers);
    }
}

/// Takes a design the whole way. Opens a bench on it and makes the calls; reads its timing; emits its program and loads it; then makes the starts
/// and steps on the machine, with one row of registers, as many as there are answers, and writes the answers. Answers K and L.
///
/// Refused where the bench does not open, by 6 or 7, and by 14 where the program does not fit.
pub fn run_channels<L: CellLibrary>(
    design: &Design,
    cycle: &mut [u8],
    calls: &[Call<'_>],
    words: &mut [u32],
    library: &mut L,
    events: &[Event<'_, L::Elem>],
    registers: &mut [L::Elem],
    answers: &mut [Option<L::Elem>],
) -> Result<(u32, u32), Fault>
    ensures whole { Whole calls.now (L.meaning library.old) events.now registers.old answers.old registers.new answers.new result design.now cycle.old cycle.new words.old words.new }
    ensures same { L.meaning library.new ≡ L.meaning library.old }
{
    let mut bench = Bench::open(design, cycle)?;
    bench.send(calls);
    let timing = bench.timing();
    let count = bench.emit(words)?;
    let mut machine = Machine::load(&words[..count])?;
    let turns = events.len().min(answers.len());
    run(
        &mut machine,
        &events[..turns],
        library,
        registers,
        &mut answers[..turns],
    );
    Ok(timing)
}
