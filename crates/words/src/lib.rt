//! The word reader: refusals, designs and array programs, and reading them from 32-bit words.
#![tactic(auto)]

pub mod bytes;
pub mod design;
mod draft;
pub mod faults;
pub mod graph;
pub mod input;
pub mod kinds;
pub mod program;
mod program_draft;
pub mod program_reader;
pub mod program_table;
pub mod reader;
mod reading;
