//! The worked designs and refusals, as tests.
#![tactic(auto)]

#[cfg(test)]
mod buffers;
#[cfg(test)]
mod inputs;
#[cfg(test)]
mod loading;
#[cfg(test)]
mod own_cells;
#[cfg(test)]
mod programs;
#[cfg(test)]
mod reading;
#[cfg(test)]
mod settling;
#[cfg(test)]
mod simulating;
#[cfg(test)]
mod whole;
