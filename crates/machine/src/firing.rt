//! Firing the nodes of a plan at one time.

ghost use Rattle.std.specs.Prelude.{◌≡◌, ◌*◌, ◌≤◌, map, length, take, drop};
ghost use Rattle.cells.specs.Meaning.{applied};
ghost use Rattle.machine.specs.Values.{operand};
ghost use Rattle.machine.specs.Plans.{taps_in, Ready};
ghost use Rattle.machine.specs.Buffers.{heard_in};
ghost use Rattle.machine.specs.Simulation.{Advances};

use crate::cell::Cell;
use crate::moment::Moment;
use crate::plan::Plan;
use cells::library::CellLibrary;

impl Cell {
    /// The value of the cell's node at a time: its operation on what its taps hear.
    fn value<L: CellLibrary>(
        &self,
        library: &mut L,
        moment: &Moment<'_, L::Elem>,
        history: &[L::Elem],
    ) -> L::Elem
        requires ready { Ready moment.now.count self.now }
        requires history { moment.now.count * length moment.now.inputs.now ≤ length history.now }
        ensures value { (d : L.Elem) → result ≡ applied (L.meaning library.old) self.now.operation (map (operand (heard_in moment.now.count moment.now.rest.now moment.now.inputs.now history.now d moment.now.time)) (taps_in self.now)) }
        ensures same { L.meaning library.new ≡ L.meaning library.old }
    {
        let mut sum = library.first(self.operation);
        for tap in &self.taps[..self.count] {
            let operand = moment.hears(history, *tap);
            sum = library.next(self.operation, tap.source, sum, operand);
        }
        library.element(self.operation, sum)
    }
}

impl Plan {
    /// Fires all nodes at a time, and writes their values into the history.
    pub(crate) fn fire<L: CellLibrary>(
        &self,
        library: &mut L,
        moment: &Moment<'_, L::Elem>,
        history: &mut [L::Elem],
    )
        requires all { self.now.count ≡ moment.now.count }
        requires history { moment.now.count * length moment.now.inputs.now ≤ length history.old }
        ensures values { Advances (take self.now.count self.now.cells) (L.meaning library.old) moment.now.rest.now moment.now.inputs.now history.old history.new moment.now.time }
        ensures long { length history.new ≡ length history.old }
        ensures past { drop (moment.now.count * length moment.now.inputs.now) history.new ≡ drop (moment.now.count * length moment.now.inputs.now) history.old }
        ensures same { L.meaning library.new ≡ L.meaning library.old }
    {
        for cell in &self.cells[..self.count] {
            let value = cell.value(library, moment, history);
            history[moment.time * moment.count + cell.node] = value;
        }
    }
}
