//! The bench: a design slowed, lagged and settled; writing designs and listing words.
#![tactic(auto)]

pub mod bench;
pub mod calls;
mod delays;
mod emission;
mod encode;
mod firing;
pub mod inputs;
pub mod listing;
mod moves;
mod opening;
pub mod order;
pub mod program;
pub mod programmed;
mod retimed;
pub mod retiming;
pub mod rewriting;
pub mod verdict;
pub mod writer;
