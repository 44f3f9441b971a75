//! Cells by hand, and the source of design E simulated.

use crate::reading::by;
use crate::settling::opened;
use bench::bench::Bench;
use cells::apply::apply;
use cells::bubble::Bubble;
use cells::compare::CompareCells;
use cells::floats::FloatCells;
use cells::weights::{Weight, Weights};
use cells::whole::WholeCells;
use channels::worked::worked_results;
use examples::designs::DESIGN_E;
use examples::libraries::cells_of_e;
use machine::simulator::{MAX_TIMES, simulate};
use machine::values::value_order;
use std::num::f32_to_bits_with_nan;
use std::test::Fail;
use words::faults::{Fault, MachineQuestion};

#[test]
fn worked_results_are_proved() {
    worked_results();
}

/// The source of E on inputs of 1, from rests of 0.
fn simulate_e(bench: &Bench, history: &mut [i32], outputs: &mut [i32]) -> Result<(), Fault> {
    simulate(
        bench,
        &mut cells_of_e(),
        &[0, 0, 0],
        &[1, 1, 1],
        history,
        outputs,
    )
}

#[test]
fn the_source_of_design_e(rt: HostRuntime) -> Result<(), Fail> {
    let mut bench = opened(&DESIGN_E)?;
    let mut history = [7; 8];
    let mut outputs = [7; 4];
    simulate_e(&bench, &mut history, &mut outputs)?;
    assert!(rt; history == [3, 3, 9, 3, 21, 3, 7, 7]);
    assert!(rt; outputs == [3, 9, 21, 7]);
    bench.settle()?;
    let mut settled = [7; 4];
    simulate_e(&bench, &mut history, &mut settled)?;
    assert!(rt; settled == outputs);
    Ok(())
}

#[test]
fn rests_other_than_0(rt: HostRuntime) -> Result<(), Fail> {
    let bench = opened(&DESIGN_E)?;
    let mut history = [0; 4];
    let mut outputs = [0; 2];
    simulate(
        &bench,
        &mut cells_of_e(),
        &[10, 20, 30],
        &[1, 2],
        &mut history,
        &mut outputs,
    )?;
    assert!(rt; history == [23, 3, 52, 6]);
    assert!(rt; outputs == [23, 52]);
    Ok(())
}

#[test]
fn rest_rows_of_wrong_lengths(rt: HostRuntime) -> Result<(), Fail> {
    let bench = opened(&DESIGN_E)?;
    for length in 0..5 {
        let mut history = [7; 6];
        let mut outputs = [7; 3];
        let rest = [0; 5];
        let answer = simulate(
            &bench,
            &mut cells_of_e(),
            &rest[0..length],
            &[1; 3],
            &mut history,
            &mut outputs,
        );
        let wrong = if length == 3 {
            None
        } else {
            by(MachineQuestion::RestRow, length, 3)
        };
        assert_eq!(rt; answer.err(), wrong);
        assert!(rt; (history == [7; 6]) == (length != 3));
        assert!(rt; (outputs == [7; 3]) == (length != 3));
    }
    Ok(())
}

#[test]
fn short_rows_stay(rt: HostRuntime) -> Result<(), Fail> {
    let bench = opened(&DESIGN_E)?;
    let mut history = [7; 5];
    let mut outputs = [7; 3];
    assert_eq!(rt;
        simulate_e(&bench, &mut history, &mut outputs).err(),
        by(MachineQuestion::History, 5, 6)
    );
    assert!(rt; history == [7; 5]);
    assert!(rt; outputs == [7; 3]);
    let mut history = [7; 6];
    let mut outputs = [7; 2];
    assert_eq!(rt;
        simulate_e(&bench, &mut history, &mut outputs).err(),
        by(MachineQuestion::Outputs, 2, 3)
    );
    assert!(rt; history == [7; 6]);
    assert!(rt; outputs == [7; 2]);
    Ok(())
}

/// What simulating E on so many inputs answers without room for what it writes.
fn simulate_nowhere(bench: &Bench, inputs: &[i32]) -> Option<Fault> {
    let mut library = cells_of_e();
    simulate(bench, &mut library, &[0, 0, 0], inputs, &mut [], &mut []).err()
}

#[test]
fn too_many_times(rt: HostRuntime) -> Result<(), Fail> {
    let bench = opened(&DESIGN_E)?;
    let inputs = vec![in rt.alloc(); 1; MAX_TIMES + 1]?;
    assert_eq!(rt;
        simulate_nowhere(&bench, &inputs),
        by(MachineQuestion::Times, 65537, 65536)
    );
    assert_eq!(rt;
        simulate_nowhere(&bench, &inputs[1..]),
        by(MachineQuestion::History, 0, 131072)
    );
    Ok(())
}

#[test]
fn values_of_design_e_follow(rt: HostRuntime) -> Result<(), Fail> {
    let mut bench = opened(&DESIGN_E)?;
    assert!(rt; value_order::<i32, i32>(&bench).nodes() == [1, 0].as_slice());
    bench.settle()?;
    assert!(rt; value_order::<i32, i32>(&bench).nodes() == [1, 0].as_slice());
    assert!(rt; bench.order().nodes() == [0, 1].as_slice());
    Ok(())
}

#[test]
fn whole_cells_wrap(rt: HostRuntime) {
    let mut library = cells_of_e();
    assert_eq!(rt; apply(&mut library, 0, &[(1, i32::MAX), (2, 1)]), i32::MIN);
    assert_eq!(rt; apply(&mut library, 0, &[(0, i32::MIN), (2, -1)]), -1);
    assert_eq!(rt; library.value(1, &[(32, 7), (3, 1)]), 22);
}

#[test]
fn float_cells_round_twice(rt: HostRuntime) {
    let mut library = FloatCells {
        weights: Weights::all(Weight {
            factor: 1.0 / 3.0,
            source: 0,
        }),
    };
    assert_eq!(rt; f32_to_bits_with_nan(apply(&mut library, 5, &[])), 0);
    assert_eq!(rt;
        f32_to_bits_with_nan(apply(&mut library, 5, &[(1, -0.0)])),
        0
    );
    assert_eq!(rt;
        f32_to_bits_with_nan(apply(&mut library, 5, &[(0, 3.0)])),
        0x3F800000
    );
    assert_eq!(rt;
        f32_to_bits_with_nan(apply(&mut library, 5, &[(0, 0.1), (1, 1.0)])),
        0x3F844444
    );
    // 3 times the weight is above 1, and rounds to 1: a product that went into the sum unrounded would leave 0x33000000
    assert_eq!(rt;
        f32_to_bits_with_nan(apply(&mut library, 5, &[(1, -1.0), (0, 3.0)])),
        0
    );
}

#[test]
fn compare_cells_choose(rt: HostRuntime) {
    let mut library = CompareCells;
    assert_eq!(rt; library.value(2, &[(0, 4), (1, 9), (2, 3)]), 9);
    assert_eq!(rt; library.value(3, &[(0, 4), (1, 9), (2, 3)]), 3);
    assert_eq!(rt; library.value(0, &[]), 0);
    assert_eq!(rt; library.value(1, &[]), 65535);
}

#[test]
fn an_absent_operand_is_heard(rt: HostRuntime) {
    let mut library = Bubble {
        below: CompareCells,
    };
    assert_eq!(rt; library.value(2, &[(0, Some(4)), (1, Some(9))]), Some(9));
    assert_eq!(rt;
        library.value(2, &[(0, Some(4)), (1, None), (2, Some(3))]),
        None
    );
    assert_eq!(rt; library.value(3, &[]), Some(65535));
}
