//! A bench opened, settled and emitted, and the program loaded: K, lags, current delays, the firing order, the verdict and the array program.

use crate::Stopped;
use crate::notation::Feed;
use crate::reading::print_words;
use bench::bench::Bench;
use bench::verdict::Breach;
use machine::machine::Machine;
use std::io;
use words::design::Design;
use words::graph::{MAX_NODES, SOURCES};

/// A node's lag and the current delays of its feeds, in the z-notation.
fn print_node(rt: &impl Print, bench: &Bench, node: usize, lag: u16) -> io::Result<()> {
    print!(rt; "  v{node} lags {lag}, hears")?;
    let feeds = (0..SOURCES).filter_map(|source| {
        let delay = bench.delay(node, source)?;
        Some(Feed { source, delay })
    });
    for feed in feeds {
        print!(rt; " {feed}")?;
    }
    println!(rt; "")
}

fn print_verdict(rt: &impl Print, verdict: Result<(), Breach>) -> io::Result<()> {
    match verdict {
        Ok(()) => println!(rt; "  systolic"),
        Err(Breach::C1 { node, source }) => {
            println!(rt; "  not systolic: v{node} hears v{source} at delay 0")
        }
        Err(
            Breach::C2 {
                source,
                smaller,
                larger,
            },
        ) => println!(rt;
            "  not systolic: v{smaller} and v{larger} hear source {source} at one delay"
        ),
    }
}

/// Prints K and L, each node's lag and current delays, the firing order and the verdict.
fn print_bench(rt: &impl Print, bench: &Bench) -> io::Result<()> {
    let (factor, latency) = bench.timing();
    println!(rt; "  K = {factor}, L = {latency}")?;
    let nodes = 0..bench.design().count();
    let lags = nodes.filter_map(|node| Some((node, bench.lag_of(node)?)));
    for (node, lag) in lags {
        print_node(rt, bench, node, lag)?;
    }
    print_order(rt, bench)?;
    print_verdict(rt, bench.verdict())
}

fn print_order(rt: &impl Print, bench: &Bench) -> io::Result<()> {
    let order = bench.order();
    print!(rt; "  firing order")?;
    for node in order.nodes() {
        print!(rt; " v{node}")?;
    }
    println!(rt; "")
}

/// Emits the array program, prints its words and loads it.
fn emit_aloud(rt: &impl Print, bench: &Bench) -> Result<(), Stopped> {
    let mut words = [0; 16];
    let count = bench.emit(&mut words)?;
    println!(rt; "emitted, the array program is {count} words:")?;
    print_words(rt, &words[..count])?;
    let registers = Machine::load(&words[..count])?.registers();
    println!(rt; "loaded, its machine needs {registers} registers")?;
    Ok(())
}

/// Opens a bench on the design, settles it, emits its program and loads that. The answer is the bench, settled.
pub(crate) fn settle_aloud(rt: &impl Print, design: &Design) -> Result<Bench, Stopped> {
    let mut bench = Bench::open(design, &mut [0; MAX_NODES])?;
    println!(rt; "opened on a bench:")?;
    print_bench(rt, &bench)?;
    bench.settle()?;
    println!(rt; "settled:")?;
    print_bench(rt, &bench)?;
    emit_aloud(rt, &bench)?;
    Ok(bench)
}
