// The walk along a path, and the calls that change nothing: check, find, read, read point. None of these requires anything.

#![tactic(auto)]

pub mod check;
pub mod objects;
pub mod reading;
pub mod refusal;
pub mod slots;
pub mod walk;
