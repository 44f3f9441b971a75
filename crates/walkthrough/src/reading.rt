//! A design read and written: its words, and what its nodes hear.

use crate::Stopped;
use crate::notation::{Feed, Heard};
use bench::rewriting::rewrite;
use bench::writer::write_design;
use examples::designs::DESIGN_E;
use std::io;
use words::design::Design;
use words::reader::read_design;

pub(crate) fn print_words(rt: &impl Print, words: &[u32]) -> io::Result<()> {
    for word in words {
        println!(rt; "  {word:08X}")?;
    }
    Ok(())
}

fn print_design(rt: &impl Print, design: &Design) -> io::Result<()> {
    for (number, node) in design.nodes().iter().enumerate() {
        let heard = Heard { number, node };
        println!(rt; "  {heard}")?;
    }
    let output = design.output();
    let feed = Feed {
        source: output.node,
        delay: u16::from(output.delay),
    };
    println!(rt; "  y = {feed}")
}

/// Reads the words and prints the design.
pub(crate) fn read_aloud(rt: &impl Print, words: &[u32]) -> Result<Design, Stopped> {
    let count = words.len();
    println!(rt; "read {count} words:")?;
    print_words(rt, words)?;
    let design = read_design(words)?;
    let nodes = design.count();
    println!(rt; "they are a design of {nodes} nodes:")?;
    print_design(rt, &design)?;
    Ok(design)
}

/// Writes the design back and reads it again.
pub(crate) fn round_trip(rt: &impl Print, design: &Design) -> Result<(), Stopped> {
    let mut words = [0; 16];
    let count = write_design(design, &mut words)?;
    let written = &words[..count];
    println!(rt; "written, the design is {count} words:")?;
    print_words(rt, written)?;
    let same = written == DESIGN_E.as_slice();
    println!(rt; "the words written are the words read: {same}")?;
    let again = rewrite(&DESIGN_E, &mut [0; 8])?;
    println!(rt; "read from the words written, the design is:")?;
    print_design(rt, &again)?;
    Ok(())
}
