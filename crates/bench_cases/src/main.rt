//! Reads designs with moves, one case a line, and prints for each what its bench answers and how it stands at the end.
#![tactic(auto)]

use anyhow::Context;
use bench::bench::Bench;
use bench::program::MAX_PROGRAM_WORDS;
use cases::designs::parse_design;
use cases::moves::Move;
use cases::printing::{Bits, Row};
use std::alloc::{AllocError, Global};
use std::io;
use std::io::{BufRead, BufReader};
use words::faults::{DesignFault, Fault};
use words::graph::MAX_NODES;

/// Nodes and sources below this are asked for; a design has no more than 33 of them.
const ASKED: usize = 40;

/// Prints a cycle from its lowest node on.
fn print_cycle<R: AllocGlobal + Print>(rt: &R, cycle: &[u8]) -> io::Result<()> {
    let lowest = cycle.iter().enumerate().min_by_key(|(_, node)| **node);
    let start = lowest.map_or(0, |(place, _)| place);
    let (behind, ahead) = (cycle.iter().take(start), cycle.iter().skip(start));
    let nodes: Vec<u8> = ahead.chain(behind).copied().collect(rt.alloc())?;
    println!(rt; "{}", Row("cycle", &nodes))
}

/// Prints why a design was refused, and the cycle that was shown.
fn print_unopened<R: AllocGlobal + Print>(
    rt: &R,
    fault: Fault,
    buffer: &[u8],
) -> anyhow::Result<()> {
    println!(rt; "{fault}")?;
    let Fault::Design(DesignFault { place, .. }) = fault else {
        return Ok(());
    };
    let cycle = buffer.get(0..place).context("a cycle is too long")?;
    print_cycle(rt, cycle)?;
    Ok(())
}

fn print_lags<R: AllocGlobal + Print>(rt: &R, bench: &Bench) -> io::Result<()> {
    let lags: Vec<u16> = (0..ASKED)
        .filter_map(|node| bench.lag_of(node))
        .collect(rt.alloc())?;
    println!(rt; "{}", Row("lags", &lags))
}

fn print_delays(rt: &impl Print, bench: &Bench) -> io::Result<()> {
    print!(rt; "delays")?;
    for (node, source) in (0..ASKED).flat_map(|node| (0..ASKED).map(move |source| (node, source))) {
        if let Some(delay) = bench.delay(node, source) {
            print!(rt; " {node}<{source}:{delay}")?;
        }
    }
    let output = bench.output_delay();
    println!(rt; " out:{output}")
}

/// Prints the nodes in firing order, then each node's rank.
fn print_order<R: AllocGlobal + Print>(rt: &R, bench: &Bench) -> io::Result<()> {
    let order = bench.order();
    println!(rt; "{}", Row("order", order.nodes()))?;
    let ranks: Vec<u8> = (0..ASKED)
        .filter_map(|node| order.rank_of(node))
        .collect(rt.alloc())?;
    println!(rt; "{}", Row("ranks", &ranks))
}

fn print_verdict(rt: &impl Print, bench: &Bench) -> io::Result<()> {
    match bench.verdict() {
        Ok(()) => println!(rt; "systolic"),
        Err(breach) => println!(rt; "{breach}"),
    }
}

fn print_program<R: AllocGlobal + Print>(rt: &R, bench: &Bench) -> io::Result<()> {
    let mut words = [0; MAX_PROGRAM_WORDS];
    match bench.emit(&mut words) {
        Ok(count) => {
            let words: Vec<Bits> = words[..count]
                .iter()
                .copied()
                .map(Bits)
                .collect(rt.alloc())?;
            println!(rt; "{}", Row("program", &words))
        }
        Err(fault) => println!(rt; "program {fault}"),
    }
}

fn print_bench<R: AllocGlobal + Print>(rt: &R, bench: &Bench) -> io::Result<()> {
    let (factor, latency) = bench.timing();
    println!(rt; "timing {factor} {latency}")?;
    print_lags(rt, bench)?;
    print_delays(rt, bench)?;
    print_order(rt, bench)?;
    print_verdict(rt, bench)?;
    print_program(rt, bench)
}

/// What follows `lag` are its shifts, whether a space stands between or not. Where none does, this is the text with one.
fn with_space(alloc: Global, text: &str) -> Result<Option<String>, AllocError> {
    match text.strip_prefix("lag") {
        Some(shifts) if !shifts.starts_with(' ') => Ok(Some(format!(in alloc; "lag {shifts}")?)),
        _ => Ok(None),
    }
}

/// Makes the moves of a case, and prints what each is answered and how the bench stands at the end.
fn print_moves<R: AllocGlobal + Print>(
    rt: &R,
    mut bench: Bench,
    moves: &str,
) -> anyhow::Result<()> {
    println!(rt; "ok")?;
    for text in moves.split_terminator(';') {
        let spaced = with_space(rt.alloc(), text)?;
        let text = spaced.as_deref().unwrap_or(text);
        match bench.make(&Move::parse(rt.alloc(), text)?.call()) {
            Ok(()) => println!(rt; "ok")?,
            Err(fault) => println!(rt; "{fault}")?,
        }
    }
    print_bench(rt, &bench)?;
    Ok(())
}

fn print_case<R: AllocGlobal + Print>(rt: &R, line: &str) -> anyhow::Result<()> {
    let (words, moves) = line.split_once(':').context("a line has no colon")?;
    let design = parse_design(rt.alloc(), words)?;
    let mut cycle = [0; MAX_NODES];
    match Bench::open(&design, &mut cycle) {
        Ok(bench) => print_moves(rt, bench, moves),
        Err(fault) => print_unopened(rt, fault, &cycle),
    }
}

fn main(rt: HostRuntime) -> anyhow::Result<()> {
    let lines = BufReader::new(rt.alloc(), rt.reader())?.lines(rt.alloc());
    for (number, line) in lines.enumerate() {
        let line = line?;
        println!(rt; "case {number}")?;
        print_case(&rt, line.as_str())?;
    }
    Ok(())
}
