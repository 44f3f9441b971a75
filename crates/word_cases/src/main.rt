//! Reads inputs as lines of hexadecimal bytes, and prints for each its design's words, or its refusal.
#![tactic(auto)]

use anyhow::Context;
use bench::inputs::{MAX_TEXT, list_input};
use std::alloc::Global;
use std::io;
use std::io::{BufRead, BufReader, Write};

/// The most bytes that a line may have.
const MAX_LINE: usize = 16384;

/// Reads a line's bytes, each of two digits in upper case. All digits are looked at, since a test that stops at the first takes longer.
fn parse_bytes(alloc: Global, line: &str) -> anyhow::Result<Vec<u8>> {
    let is_plain = line.len() / 2 <= MAX_LINE
        && !line
            .bytes()
            .fold(false, |lower, digit| lower | digit.is_ascii_lowercase());
    let bytes = if is_plain {
        hex::decode(alloc, line).ok()
    } else {
        None
    };
    bytes.context("a line is no list of bytes")
}

/// Prints a line's number, and its design's words or its refusal. A line that is no list of bytes has no number printed.
fn print_case<R: AllocGlobal + Print>(rt: &R, number: usize, line: &str) -> anyhow::Result<()> {
    let bytes = parse_bytes(rt.alloc(), line)?;
    println!(rt; "case {number}")?;
    let mut text = [0; MAX_TEXT];
    match list_input(&bytes, &mut text) {
        Ok(length) => io::writer(rt).write_all(&text[..length])?,
        Err(fault) => println!(rt; "{fault}")?,
    }
    Ok(())
}

fn main(rt: HostRuntime) -> anyhow::Result<()> {
    let lines = BufReader::new(rt.alloc(), rt.reader())?.lines(rt.alloc());
    for (number, line) in lines.enumerate() {
        print_case(&rt, number, line?.as_str())?;
    }
    Ok(())
}
