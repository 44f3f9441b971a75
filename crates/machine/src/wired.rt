//! What is worked out of a program once: the register of each value that is read or written.

ghost use Rattle.std.specs.Prelude.{◌≡◌, ◌+◌, ◌≤◌, true, ◌++◌, length, map};
ghost use Rattle.std.specs.List.{All};
ghost use Rattle.arrayvec.specs.ArrayVec.{array_vec_len};
ghost use Rattle.words.specs.Designs.{is_source};
ghost use Rattle.machine.specs.Wirings.{wire_of, wiring_of};

use crate::layout::Layout;
use crate::wiring::{MAX_WIRES, Wire, WiredCell, Wiring};
use arrayvec::ArrayVec;
use words::program::Program;
use words::program_table::Tap;

impl Layout<'_> {
    /// Adds what some taps read to a row.
    fn put_wires(&self, taps: &[Tap], wires: &mut ArrayVec<Wire, MAX_WIRES>)
        requires sources { All (λ tap. is_source self.now.count tap.source ≡ true) taps.now }
        requires room { array_vec_len wires.old + length taps.now ≤ 1056 }
        ensures { wires.new.items ≡ wires.old.items ++ map (wire_of self.now.count self.now.lines.now) taps.now }
    {
        for tap in taps {
            wires.push(self.wire(*tap));
        }
    }
}

impl Wiring {
    /// The wiring of a program.
    pub(crate) fn of(program: &Program) -> Wiring
        ensures { result ≡ wiring_of program.now.table }
    {
        let layout = Layout::of(program.count(), program.lines());
        let mut cells = ArrayVec::new();
        let mut wires = ArrayVec::new();
        for cell in program.cells() {
            let first = wires.len();
            layout.put_wires(&cell.taps, &mut wires);
            cells.push(WiredCell {
                present: layout.register(cell.node, 0),
                operation: cell.operation,
                lag: cell.lag,
                first,
                end: wires.len(),
            });
        }
        let Tap { source, delay } = program.output();
        let output = layout.register(source, delay);
        Wiring {
            starts: layout.starts,
            cells,
            wires,
            output,
        }
    }
}
