//! Cell libraries: what the cells of an array compute, behind one trait. Whole, float and compare cells, and a layer that lets elements be absent.
#![tactic(auto)]

pub mod apply;
pub mod bubble;
pub mod compare;
pub mod floats;
pub mod library;
pub mod summing;
pub mod weights;
pub mod whole;
