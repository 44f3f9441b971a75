//! A list of calls sent to a bench.

ghost use Rattle.std.specs.Prelude.{◌≡◌, length, Some, Ok};
ghost use Rattle.bench.specs.declared.calls.Call.TheVariants as the_call;
ghost use Rattle.bench.specs.Calls.{call_fault, after, moves, ended, last_accepted, Law};
ghost use Rattle.bench.specs.Refusals.{unless};
ghost use Rattle.bench.specs.Verdicts.{C1Holds, C2Holds};

use crate::bench::Bench;
use words::faults::Fault;

/// A call that moves a bench.
#[derive(Clone, Copy, PartialEq, Eq, Debug)]
pub enum Call<'a> {
    Lag { shifts: &'a [i32] },
    Slow { factor: u32 },
    Settle,
}

impl Bench {
    /// Makes one call. A refused call changes nothing.
    pub fn make(&mut self, call: &Call<'_>) -> Result<(), Fault>
        ensures answer { result ≡ unless (call_fault self.old.design.graph self.old.retiming call.now) tt }
        ensures design { self.new.design ≡ self.old.design }
        ensures retiming { self.new.retiming ≡ after self.old.design.graph self.old.retiming call.now }
        ensures systolic { call.now ≡ the_call.Settle → result ≡ Ok tt → C1Holds self.old.design.graph self.new.retiming × C2Holds self.old.design.graph self.new.retiming }
    {
        match call {
            Call::Lag { shifts } => self.lag(shifts),
            Call::Slow { factor } => self.slow(*factor),
            Call::Settle => self.settle(),
        }
    }

    /// Makes the calls in turn, and answers how many were accepted. A refused call changes nothing. Where the last accepted one is settle, the
    /// bench is systolic.
    pub fn send(&mut self, calls: &[Call<'_>]) -> usize
        ensures count { result ≡ length (moves self.old.design.graph self.old.retiming calls.now) }
        ensures design { self.new.design ≡ self.old.design }
        ensures retiming { self.new.retiming ≡ ended self.old.design.graph self.old.retiming calls.now }
        ensures law { Law self.old.design.graph self.old.retiming (moves self.old.design.graph self.old.retiming calls.now) self.new.retiming }
        ensures systolic { last_accepted self.old.design.graph self.old.retiming calls.now ≡ Some the_call.Settle → C1Holds self.old.design.graph self.new.retiming × C2Holds self.old.design.graph self.new.retiming }
    {
        let mut accepted = 0;
        for call in calls {
            if self.make(call).is_ok() {
                accepted += 1;
            }
        }
        accepted
    }
}
