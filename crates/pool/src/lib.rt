//! Which records, frames and slots are free: taking, freeing, retiring a replaced chain, and the waits before it is free.

#![tactic(auto)]

pub mod free;
pub mod waits;
