//! Moves on a retiming: slow, lag and settle.

ghost use Rattle.std.specs.Prelude.{◌≡◌, ℕ, ◌<◌, ◌≤◌, true, [], map, length, take, pos, not, ◌*◌, ◌+ℤ◌, None, Some, Ok, slice_index_or, IfOk, MatchResult};
ghost use Rattle.bench.specs.Firing.{has, place_in};
ghost use Rattle.words.specs.ProgramTables.{max_factor};
ghost use Rattle.bench.specs.Moves.{lag_fault_at, natural, new_lag, new_record, moved, delays_fault, lags_fault, made_fault, slow_fault, lag_fault, is_shift, shifts_fault, ranks, settle_fault};
ghost use Rattle.std.specs.List.{range_with_len, position};
ghost use Rattle.bench.specs.Refusals.{unless, unless_kept};
ghost use Rattle.bench.specs.Verdicts.{C1Holds, C2Holds};

use crate::bench::Bench;
use crate::delays::Moved;
use crate::order::Order;
use crate::retiming::{NodeRecord, Retiming};
use std::array;
use words::faults::{BenchQuestion, Fault, Question};
use words::graph::MAX_NODES;
use words::program_table::{MAX_FACTOR, MAX_LAG};

/// A factor for K and every lag, and then a row of shifts for the lags.
#[derive(Clone, Copy)]
struct Rescaling<'a> {
    factor: u32,
    shifts: &'a [i32],
    ghost positive: { 1 ≤ factor },
    ghost slow: { factor ≤ max_factor },
    ghost fits: { (i : ℕ) → is_shift (slice_index_or shifts.now i (pos 0)) ≡ true },
}

impl<'a> Rescaling<'a> {
    /// A row of shifts by itself: question 9.
    fn shifting(shifts: &'a [i32]) -> Result<Rescaling<'a>, Fault>
        ensures made { IfOk result (λ m. (m.factor ≡ 1) × (m.shifts.now ≡ shifts.now)) }
        ensures asked { MatchResult result (λ m. shifts_fault shifts.now ≡ None) (λ f. shifts_fault shifts.now ≡ Some f) }
    {
        if let Some(index) = wrong_shift(shifts) {
            return Err(BenchQuestion::Shift.refused(index, 0));
        }
        Ok(Rescaling { factor: 1, shifts })
    }

    /// A node's shift; none is given past the row.
    fn shift(&self, node: usize) -> i32
        ensures { result ≡ slice_index_or self.now.shifts.now node (pos 0) }
    {
        self.shifts.get(node).copied().unwrap_or(0)
    }

    /// Moves each lag in turn: question 10.
    fn apply(&self, records: &mut [NodeRecord]) -> Result<(), Fault>
        ensures answer { result ≡ unless (lags_fault (length records.old) (new_lag records.old self.now.factor self.now.shifts.now)) tt }
        ensures state { result ≡ Ok tt → records.new ≡ map (new_record records.old self.now.factor self.now.shifts.now) (range_with_len 0 (length records.old)) }
    {
        for (node, record) in records.iter_mut().enumerate() {
            record.retime(self, node)?;
        }
        Ok(())
    }
}

/// The first shift that is out of range, if there is one.
fn wrong_shift(shifts: &[i32]) -> Option<usize>
    ensures { result ≡ position (λ s. not (is_shift s)) shifts.now }
{
    shifts
        .iter()
        .position(|shift| shift.unsigned_abs() > MAX_LAG)
}

impl NodeRecord {
    /// Multiplies the lag by the factor and adds the node's shift: question 10 of that node. A refused record stays.
    fn retime(&mut self, by: &Rescaling<'_>, node: usize) -> Result<(), Fault>
        ensures answer { result ≡ unless (lag_fault_at (pos (self.old.lag * by.now.factor) +ℤ slice_index_or by.now.shifts.now node (pos 0)) node) tt }
        ensures state { self.new ≡ unless_kept (lag_fault_at (pos (self.old.lag * by.now.factor) +ℤ slice_index_or by.now.shifts.now node (pos 0)) node) (record { lag = natural (pos (self.old.lag * by.now.factor) +ℤ slice_index_or by.now.shifts.now node (pos 0)) }) self.old }
    {
        let scaled = u32::from(self.lag) * by.factor;
        let lag = scaled as i32 + by.shift(node);
        if lag < 0 || lag > MAX_LAG as i32 {
            return Err(BenchQuestion::Lag.refused(node, 0));
        }
        self.lag = lag as u16;
        Ok(())
    }
}

impl Bench {
    /// What a rescaling makes of the retiming: questions 13 and 10.
    fn moved(&self, by: &Rescaling<'_>) -> Result<Moved, Fault>
        requires few { length by.now.shifts.now ≤ self.now.design.graph.count }
        ensures made { IfOk result (λ m. m.retiming ≡ moved self.now.retiming by.now.factor by.now.shifts.now) }
        ensures asked { MatchResult result (λ m. made_fault self.now.design.graph self.now.retiming by.now.factor by.now.shifts.now ≡ delays_fault self.now.design.graph m.retiming) (λ f. made_fault self.now.design.graph self.now.retiming by.now.factor by.now.shifts.now ≡ Some f) }
    {
        let Retiming {
            factor,
            mut records,
        } = self.retiming;
        let slowed = factor * by.factor;
        if slowed > MAX_FACTOR {
            return Err(BenchQuestion::Slowdown.refused(factor as usize, by.factor as usize));
        }
        by.apply(&mut records)?;
        Ok(Moved {
            retiming: Retiming {
                factor: slowed,
                records,
            },
        })
    }

    /// Rescales the retiming: questions 13, 10 and 11.
    fn rescale(&mut self, by: &Rescaling<'_>) -> Result<(), Fault>
        requires few { length by.now.shifts.now ≤ self.old.design.graph.count }
        ensures answer { result ≡ unless (made_fault self.old.design.graph self.old.retiming by.now.factor by.now.shifts.now) tt }
        ensures design { self.new.design ≡ self.old.design }
        ensures retiming { self.new.retiming ≡ unless_kept (made_fault self.old.design.graph self.old.retiming by.now.factor by.now.shifts.now) (moved self.old.retiming by.now.factor by.now.shifts.now) self.old.retiming }
    {
        let moved = self.moved(by)?;
        moved.check_delays(&self.design)?;
        self.retiming = moved.retiming;
        Ok(())
    }

    /// Multiplies K and all lags by a factor: questions 12, 13, 10 and 11. A refused call changes nothing.
    pub fn slow(&mut self, factor: u32) -> Result<(), Fault>
        ensures answer { result ≡ unless (slow_fault self.old.design.graph self.old.retiming factor) tt }
        ensures design { self.new.design ≡ self.old.design }
        ensures retiming { self.new.retiming ≡ unless_kept (slow_fault self.old.design.graph self.old.retiming factor) (moved self.old.retiming factor []) self.old.retiming }
    {
        if !(1..=MAX_FACTOR).contains(&factor) {
            return Err(BenchQuestion::Factor.refused(factor as usize, 0));
        }
        self.rescale(&Rescaling {
            factor,
            shifts: &[],
        })
    }

    /// Adds a row of shifts to the lags: questions 8, 9, 10 and 11. A refused call changes nothing.
    pub fn lag(&mut self, shifts: &[i32]) -> Result<(), Fault>
        ensures answer { result ≡ unless (lag_fault self.old.design.graph self.old.retiming shifts.now) tt }
        ensures design { self.new.design ≡ self.old.design }
        ensures retiming { self.new.retiming ≡ unless_kept (lag_fault self.old.design.graph self.old.retiming shifts.now) (moved self.old.retiming 1 shifts.now) self.old.retiming }
    {
        let count = self.design.count();
        if shifts.len() != count {
            return Err(BenchQuestion::Row.refused(shifts.len(), count));
        }
        self.rescale(&Rescaling::shifting(shifts)?)
    }

    /// Slows by n, then lags by the ranks that stood before: questions 13, 10 and 11 of the result. A refused call changes nothing; a settled bench is systolic.
    pub fn settle(&mut self) -> Result<(), Fault>
        ensures answer { result ≡ unless (settle_fault self.old.design.graph self.old.retiming) tt }
        ensures design { self.new.design ≡ self.old.design }
        ensures retiming { self.new.retiming ≡ unless_kept (settle_fault self.old.design.graph self.old.retiming) (moved self.old.retiming self.old.design.graph.count (ranks self.old.design.graph self.old.retiming)) self.old.retiming }
        ensures systolic { result ≡ Ok tt → C1Holds self.old.design.graph self.new.retiming × C2Holds self.old.design.graph self.new.retiming }
    {
        let count = self.design.count();
        let ranks = self.order().ranks_by_node();
        self.rescale(&Rescaling {
            factor: count as u32,
            shifts: &ranks[0..count],
        })
    }
}

impl Order {
    /// The rank of each node, where all are listed.
    fn ranks_by_node(&self) -> [i32; MAX_NODES]
        requires few { length self.now ≤ 32 }
        requires whole { (i : ℕ) → i < length self.now → has self.now i ≡ true }
        ensures table { length result ≡ 32 }
        ensures ranks { take (length self.now) result ≡ map (λ i. pos (place_in self.now i)) (range_with_len 0 (length self.now)) }
    {
        array::from_fn(|node| i32::from(self.rank_of(node).unwrap_or(0)))
    }
}
