//! An index over lent memory: how it is loaded, what its image holds, and worked cases of its rules.

#![tactic(auto)]

pub mod cases;
pub mod refusal;
