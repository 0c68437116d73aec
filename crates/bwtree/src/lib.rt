//! The steps of the index: each rule over lent memory, generic in the key.

#![tactic(auto)]

pub mod access;
pub mod answer;
pub mod build;
pub mod call;
pub mod delta;
pub mod ending;
pub mod leaf_walk;
pub mod memory;
pub mod old_chain;
pub mod reads;
pub mod report;
pub mod request;
pub mod root_walk;
pub mod seat;
pub mod sizes;
pub mod step;
pub mod swap;
pub mod taking;
pub mod turn;
pub mod walk;
