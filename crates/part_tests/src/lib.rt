//! Tests of the parts of the index, each on a few arrays made by hand. They stand in a crate of their own because a
//! crate with tests is proved twice.

#![tactic(auto)]

#[cfg(test)]
mod builds;
#[cfg(test)]
mod foreign;
#[cfg(test)]
mod frame_places;
#[cfg(test)]
mod frees;
pub mod lending;
#[cfg(test)]
mod memory;
#[cfg(test)]
mod numbers;
#[cfg(test)]
mod samples;
#[cfg(test)]
mod tokens;
#[cfg(test)]
mod walks;
