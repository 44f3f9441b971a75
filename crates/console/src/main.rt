//! The console: a design in on standard input, its array program out, one word a line, or one refusal line.
#![tactic(auto)]

ghost use Rattle.std.specs.Prelude.{◌≡◌, take, IfOk, IfSome};

use arrayvec::ArrayVec;
use bench::programmed::{MAX_PROGRAM_TEXT, list_program};
use std::io;
use std::io::{Read, Write};
use std::process::ExitCode;
use words::bytes::MAX_BYTES;

/// Reads an input's first 4,368 bytes, or all if there are fewer.
fn read_input<R: Read + Drop>(input: R) -> io::Result<ArrayVec<u8, MAX_BYTES>>
    ensures { IfOk result (λ bytes. IfSome (R.remaining input) (λ given. bytes.items ≡ take MAX_BYTES given)) }
{
    let mut bytes = ArrayVec::new();
    io::copy(&mut input.take(MAX_BYTES as u64), &mut bytes)?;
    Ok(bytes)
}

/// Settles the design on standard input and lists its array program, or prints a refusal, and answers the exit status.
fn run<R: Input + Print>(rt: &R) -> io::Result<ExitCode> {
    let bytes = read_input(rt.reader())?;
    let mut text = [0; MAX_PROGRAM_TEXT];
    match list_program(&bytes, &mut text) {
        Ok(length) => {
            io::writer(rt).write_all(&text[..length])?;
            Ok(ExitCode::SUCCESS)
        }
        Err(fault) => {
            println!(rt; "{fault}")?;
            Ok(ExitCode::FAILURE)
        }
    }
}

fn main(rt: HostRuntime) -> ExitCode {
    run(&rt).unwrap_or(ExitCode::FAILURE)
}
