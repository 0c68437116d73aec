//! The nodes of the tree: delta records on chains over frames of items, and what a chain means.

#![tactic(auto)]

pub mod access;
pub mod build;
pub mod chain;
pub mod halving;
pub mod items;
pub mod merge;
pub mod node;
pub mod scan;
