//! Design E the whole way, from its words to what its machine puts out.

use bench::calls::Call;
use channels::events::Event;
use channels::timing::timing_law;
use channels::whole::run_channels;
use examples::designs::DESIGN_E;
use examples::libraries::cells_of_e;
use std::test::Fail;
use words::faults::{BenchQuestion, DesignQuestion, Question};
use words::graph::MAX_NODES;
use words::reader::read_design;

#[test]
fn the_timing_law_is_proved() {
    timing_law::<i32, i32>();
}

/// The steps of two channels of E, after a start from rests of 0.
const TWO_CHANNELS: [Event<'static, i32>; 8] = [
    Event::Start { rest: &[0, 0, 0] },
    Event::Step { input: 1 },
    Event::Step { input: 5 },
    Event::Step { input: 1 },
    Event::Step { input: 0 },
    Event::Step { input: 1 },
    Event::Step { input: 0 },
    Event::Step { input: 0 },
];

#[test]
fn two_channels_of_design_e(rt: HostRuntime) -> Result<(), Fail> {
    let design = read_design(&DESIGN_E)?;
    let mut answers = [Some(7); 9];
    let timing = run_channels(
        &design,
        &mut [0; MAX_NODES],
        &[Call::Slow { factor: 65 }, Call::Settle],
        &mut [0; 11],
        &mut cells_of_e(),
        &TWO_CHANNELS,
        &mut [7; 5],
        &mut answers,
    )?;
    assert!(rt; timing == (2, 1));
    assert!(rt;
        answers
            == [
                None,
                Some(0),
                Some(3),
                Some(15),
                Some(9),
                Some(30),
                Some(21),
                Some(60),
                Some(7)
            ]
    );
    Ok(())
}

#[test]
fn refused_starts_and_steps(rt: HostRuntime) -> Result<(), Fail> {
    let design = read_design(&DESIGN_E)?;
    let events = [
        Event::Start { rest: &[0, 0, 0] },
        Event::Step { input: 1 },
        Event::Start { rest: &[9, 9] },
        Event::Step { input: 5 },
        Event::Start {
            rest: &[10, 20, 30],
        },
        Event::Step { input: 1 },
        Event::Step { input: 2 },
    ];
    let mut answers = [None; 7];
    let timing = run_channels(
        &design,
        &mut [0; MAX_NODES],
        &[],
        &mut [0; 11],
        &mut cells_of_e(),
        &events,
        &mut [7; 5],
        &mut answers,
    )?;
    assert!(rt; timing == (1, 0));
    assert!(rt; answers == [None, Some(3), None, Some(21), None, Some(23), Some(52)]);
    Ok(())
}

#[test]
fn refused_ways(rt: HostRuntime) -> Result<(), Fail> {
    let design = read_design(&DESIGN_E)?;
    let mut answers = [Some(7); 8];
    let mut registers = [7; 5];
    let short = run_channels(
        &design,
        &mut [0; 1],
        &[],
        &mut [0; 11],
        &mut cells_of_e(),
        &TWO_CHANNELS,
        &mut registers,
        &mut answers,
    );
    assert!(rt; short == Err(DesignQuestion::CycleBuffer.refused(1, 2)));
    let words = run_channels(
        &design,
        &mut [0; 2],
        &[],
        &mut [0; 10],
        &mut cells_of_e(),
        &TWO_CHANNELS,
        &mut registers,
        &mut answers,
    );
    assert!(rt; words == Err(BenchQuestion::Buffer.refused(10, 11)));
    assert!(rt; registers == [7; 5]);
    assert!(rt; answers == [Some(7); 8]);
    Ok(())
}
