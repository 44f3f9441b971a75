//! What the case programs share: the designs and moves in their lines, and rows of what they print.
#![tactic(auto)]

pub mod designs;
pub mod moves;
pub mod printing;
mod rows;
#[cfg(test)]
mod tests;
