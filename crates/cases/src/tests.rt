//! A design and its moves, read from text, and rows as text.

use crate::designs::parse_design;
use crate::moves::Move;
use crate::printing::{Bits, Row};
use bench::bench::Bench;
use std::test::Fail;
use words::graph::MAX_NODES;

const DESIGN_E: &str = "10000002 20000000 30000040 30000001 20000021 30000020 40000000 50000008";

#[test]
fn moves_are_read_and_made(rt: HostRuntime) -> Result<(), Fail> {
    let design = parse_design(rt.alloc(), DESIGN_E)?;
    let mut bench = Bench::open(&design, &mut [0; MAX_NODES])?;
    bench.make(&Move::parse(rt.alloc(), "lag 1 0")?.call())?;
    bench.make(&Move::parse(rt.alloc(), "slow 3")?.call())?;
    assert!(rt; bench.timing() == (3, 3));
    assert!(rt;
        bench
            .make(&Move::parse(rt.alloc(), "slow 65")?.call())
            .is_err()
    );
    bench.make(&Move::parse(rt.alloc(), "settle")?.call())?;
    assert!(rt; bench.timing() == (6, 6));
    Ok(())
}

#[test]
fn other_texts_are_errors(rt: HostRuntime) {
    assert!(rt; parse_design(rt.alloc(), "10000002").is_err());
    assert!(rt; parse_design(rt.alloc(), "ten").is_err());
    assert!(rt; Move::parse(rt.alloc(), "halt").is_err());
    assert!(rt; Move::parse(rt.alloc(), "lag").is_err());
    assert!(rt; Move::parse(rt.alloc(), "slow").is_err());
    assert!(rt; Move::parse(rt.alloc(), "settle 2").is_err());
    assert!(rt; Move::parse(rt.alloc(), "lag 1 x").is_err());
}

#[test]
fn rows_are_printed(rt: HostRuntime) -> Result<(), Fail> {
    let row = format!(in rt.alloc(); "{}", Row("program", &[Bits(0x80000082), Bits(10)]))?;
    assert!(rt; row.as_str() == "program 80000082 0000000A");
    let row = format!(in rt.alloc(); "{}", Row::<u8>("out", &[]))?;
    assert!(rt; row.as_str() == "out");
    Ok(())
}
