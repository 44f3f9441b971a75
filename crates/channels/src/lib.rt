//! The timing promise of emitted programs, and the worked results, over all the libraries below.
#![tactic(auto)]

pub mod events;
pub mod timing;
pub mod whole;
pub mod worked;
