//! Kinds of keys: an order with three laws, a byte form above it, and the two kinds in use.

#![tactic(auto)]

pub mod byte_form;
pub mod expiry;
pub mod number;
pub mod order;
#[cfg(test)]
mod tests;
pub mod token;
