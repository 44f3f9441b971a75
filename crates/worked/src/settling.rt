//! Design E, an FIR filter and one-node designs on the bench, and one refusal by each question of opening and moving.

use crate::buffers::shorter_buffers_stay;
use crate::reading::{by, too_short};
use bench::bench::Bench;
use bench::calls::Call;
use bench::verdict::Breach;
use examples::designs::{DESIGN_E, FIR};
use std::test::Fail;
use words::faults::{BenchQuestion, DesignQuestion, Fault, Question};
use words::graph::MAX_NODES;
use words::reader::read_design;

pub(crate) fn opened(words: &[u32]) -> Result<Bench, Fault> {
    Bench::open(&read_design(words)?, &mut [0; MAX_NODES])
}

fn settled(words: &[u32]) -> Result<Bench, Fault> {
    let mut bench = opened(words)?;
    bench.settle()?;
    Ok(bench)
}

#[test]
fn design_e_settles(rt: HostRuntime) -> Result<(), Fail> {
    let mut bench = opened(&DESIGN_E)?;
    assert_eq!(rt; bench.verdict(), Err(Breach::C1 { node: 0, source: 1 }));
    bench.settle()?;
    assert!(rt; bench.timing() == (2, 1));
    assert_eq!(rt; bench.lag_of(0), Some(1));
    assert_eq!(rt; bench.lag_of(1), Some(0));
    assert_eq!(rt; bench.lag_of(2), None);
    assert_eq!(rt; bench.delay(0, 0), Some(2));
    assert_eq!(rt; bench.delay(0, 1), Some(1));
    assert_eq!(rt; bench.delay(0, 32), None);
    assert_eq!(rt; bench.delay(1, 32), Some(0));
    assert_eq!(rt; bench.output_delay(), 0);
    assert_eq!(rt; bench.verdict(), Ok(()));
    Ok(())
}

#[test]
fn a_zero_cycle_is_shown(rt: HostRuntime) -> Result<(), Fail> {
    let design = read_design(&[0x10000001, 0x20000000, 0x30000000, 0x40000000, 0x50000005])?;
    shorter_buffers_stay(
        [9; 2],
        1,
        |cycle| Bench::open(&design, cycle).err(),
        |length| DesignQuestion::CycleBuffer.refused(length, 1),
    )?;
    for length in 1..3 {
        let mut cycle = [9; 2];
        assert_eq!(rt;
            Bench::open(&design, &mut cycle[0..length]).err(),
            Some(DesignQuestion::WellDefined.refused(1, 0))
        );
        assert!(rt; cycle == [0, 9]);
    }
    Ok(())
}

#[test]
fn a_short_cycle_buffer_is_refused(rt: HostRuntime) -> Result<(), Fail> {
    let design = read_design(&DESIGN_E)?;
    let mut cycle = [9; 1];
    assert_eq!(rt;
        Bench::open(&design, &mut cycle).err(),
        Some(DesignQuestion::CycleBuffer.refused(1, 2))
    );
    assert!(rt; cycle == [9]);
    Ok(())
}

#[test]
fn short_cycle_buffers_of_every_length(rt: HostRuntime) -> Result<(), Fail> {
    let design = read_design(&DESIGN_E)?;
    shorter_buffers_stay(
        [9; 3],
        2,
        |cycle| Bench::open(&design, cycle).err(),
        |length| DesignQuestion::CycleBuffer.refused(length, 2),
    )?;
    Ok(())
}

#[test]
fn cycle_buffers_of_an_opened_design_stay(rt: HostRuntime) -> Result<(), Fail> {
    let design = read_design(&DESIGN_E)?;
    for length in 2..4 {
        let mut cycle = [9; 3];
        assert_eq!(rt; Bench::open(&design, &mut cycle[0..length]).err(), None);
        assert!(rt; cycle == [9; 3]);
    }
    Ok(())
}

#[test]
fn lags_of_design_e(rt: HostRuntime) -> Result<(), Fail> {
    let mut bench = opened(&DESIGN_E)?;
    assert_eq!(rt; bench.lag(&[0, 1]).err(), by(BenchQuestion::Delay, 0, 1));
    assert_eq!(rt; bench.lag(&[0]).err(), by(BenchQuestion::Row, 1, 2));
    assert_eq!(rt; bench.lag(&[0, 4096]).err(), by(BenchQuestion::Shift, 1, 0));
    assert_eq!(rt;
        bench.lag(&[-4096, 0]).err(),
        by(BenchQuestion::Shift, 0, 0)
    );
    assert_eq!(rt; bench.lag(&[0, -1]).err(), by(BenchQuestion::Lag, 1, 0));
    bench.lag(&[4095, 4095])?;
    assert_eq!(rt; bench.lag(&[1, 1]).err(), by(BenchQuestion::Lag, 0, 0));
    assert!(rt; bench.timing() == (1, 4095));
    Ok(())
}

#[test]
fn slowing_design_e(rt: HostRuntime) -> Result<(), Fail> {
    let mut bench = opened(&DESIGN_E)?;
    assert_eq!(rt; bench.slow(0).err(), by(BenchQuestion::Factor, 0, 0));
    assert_eq!(rt; bench.slow(65).err(), by(BenchQuestion::Factor, 65, 0));
    bench.slow(64)?;
    assert_eq!(rt; bench.slow(2).err(), by(BenchQuestion::Slowdown, 64, 2));
    assert_eq!(rt; bench.settle().err(), by(BenchQuestion::Slowdown, 64, 2));
    assert_eq!(rt; bench.delay(0, 0), Some(64));
    Ok(())
}

#[test]
fn delays_of_63_and_64_slowed_by_64(rt: HostRuntime) -> Result<(), Fail> {
    let mut bench = opened(&[0x10000001, 0x20000000, 0x30000FE0, 0x40000000, 0x50000005])?;
    bench.slow(64)?;
    assert_eq!(rt; bench.delay(0, 32), Some(4032));
    let mut longer = opened(&[0x10000001, 0x20000000, 0x30001020, 0x40000000, 0x50000005])?;
    assert_eq!(rt; longer.slow(64).err(), by(BenchQuestion::Delay, 0, 32));
    let mut output = opened(&[0x10000001, 0x20000000, 0x40001000, 0x50000004])?;
    assert_eq!(rt; output.slow(64).err(), by(BenchQuestion::Delay, 32, 0));
    Ok(())
}

#[test]
fn an_fir_filter_lagged(rt: HostRuntime) -> Result<(), Fail> {
    let mut bench = opened(&FIR)?;
    bench.lag(&[3, 2, 1, 0])?;
    assert_eq!(rt; bench.delay(0, 1), Some(1));
    assert_eq!(rt; bench.delay(1, 2), Some(1));
    assert_eq!(rt; bench.delay(2, 3), Some(1));
    assert_eq!(rt; bench.delay(0, 32), Some(6));
    assert_eq!(rt; bench.delay(1, 32), Some(4));
    assert_eq!(rt; bench.delay(2, 32), Some(2));
    assert_eq!(rt; bench.delay(3, 32), Some(0));
    assert!(rt; bench.timing() == (1, 3));
    assert_eq!(rt; bench.verdict(), Ok(()));
    Ok(())
}

#[test]
fn calls_in_a_list(rt: HostRuntime) -> Result<(), Fail> {
    let mut bench = opened(&DESIGN_E)?;
    let calls = [
        Call::Lag { shifts: &[1, 0] },
        Call::Slow { factor: 65 },
        Call::Slow { factor: 3 },
        Call::Settle,
    ];
    assert_eq!(rt; bench.send(&calls), 3);
    assert!(rt; bench.timing() == (6, 6));
    assert_eq!(rt; bench.lag_of(0), Some(6));
    assert_eq!(rt; bench.lag_of(1), Some(1));
    Ok(())
}

#[test]
fn long_row_in_a_list(rt: HostRuntime) -> Result<(), Fail> {
    let mut bench = opened(&DESIGN_E)?;
    let calls = [Call::Lag { shifts: &[0; 33] }, Call::Settle];
    assert_eq!(rt; bench.send(&calls), 1);
    assert!(rt; bench.timing() == (2, 1));
    Ok(())
}

#[test]
fn design_e_emits(rt: HostRuntime) -> Result<(), Fail> {
    let bench = settled(&DESIGN_E)?;
    let mut words = [7; 12];
    assert_eq!(rt; bench.emit(&mut words)?, 11);
    assert!(rt;
        words
            == [
                0x80000082, 0x90000080, 0x90000041, 0x90000020, 0xA0002000, 0xB0000080, 0xB0000041,
                0xA0000021, 0xB0000020, 0xC0000000, 0xD000000B, 7,
            ]
    );
    Ok(())
}

#[test]
fn short_program_buffers_stay(rt: HostRuntime) -> Result<(), Fail> {
    let bench = settled(&DESIGN_E)?;
    let mut words = [7; 10];
    let answer = bench.emit(&mut words);
    assert!(rt; answer.is_err());
    assert!(rt; words == [7; 10]);
    let mut text = [7; 99];
    assert_eq!(rt; bench.list(&mut text)?, 99);
    assert_eq!(rt; text[0], b'8');
    assert_eq!(rt; text[98], b'\n');
    Ok(())
}

#[test]
fn program_buffers_of_every_length(rt: HostRuntime) -> Result<(), Fail> {
    let bench = settled(&DESIGN_E)?;
    shorter_buffers_stay(
        [7; 12],
        11,
        |words| bench.emit(words).err(),
        |length| too_short(length, 11),
    )?;
    let mut words = [7; 12];
    assert_eq!(rt; bench.emit(&mut words[0..11])?, 11);
    assert_eq!(rt; words[10], 0xD000000B);
    assert_eq!(rt; words[11], 7);
    Ok(())
}

#[test]
fn short_listing_buffers_of_every_length(rt: HostRuntime) -> Result<(), Fail> {
    let bench = settled(&DESIGN_E)?;
    shorter_buffers_stay(
        [7; 100],
        99,
        |text| bench.list(text).err(),
        |length| too_short(length, 99),
    )?;
    Ok(())
}

#[test]
fn listings_leave_the_rest(rt: HostRuntime) -> Result<(), Fail> {
    let bench = settled(&DESIGN_E)?;
    for length in 99..101 {
        let mut text = [7; 100];
        assert_eq!(rt; bench.list(&mut text[0..length])?, 99);
        assert_eq!(rt; text[0], b'8');
        assert_eq!(rt; text[98], b'\n');
        assert_eq!(rt; text[99], 7);
    }
    Ok(())
}
