//! The worked designs, and the cells of design E.
#![tactic(auto)]

pub mod designs;
pub mod libraries;
