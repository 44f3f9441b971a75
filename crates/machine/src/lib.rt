//! The simulator of a source design, and the machine that loads a program and steps it.
#![tactic(auto)]

pub mod cell;
mod checks;
mod firing;
mod layout;
mod line;
mod loading;
pub mod machine;
mod moment;
pub mod named;
pub mod plan;
pub mod simulator;
mod starting;
mod step;
pub mod values;
mod wired;
pub mod wiring;
