//! Images of an index: the bytes that hold its entries, how they are checked and read, and how they are written.

#![tactic(auto)]

pub mod entry;
mod order;
pub mod reader;
pub mod refusal;
#[cfg(test)]
mod tests;
pub mod writer;
