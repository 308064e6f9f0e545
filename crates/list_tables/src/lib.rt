// The listing of ids 0 to 2: each field of an entry a line, under the Rust's name.
#![tactic(auto)]

pub mod associations;
pub mod fragments;
pub mod satellites;
