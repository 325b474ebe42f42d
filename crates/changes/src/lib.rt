// The calls that change the image: format, make directory, make file, write, set length, remove. None of them requires anything.

#![tactic(auto)]

pub mod bytes;
pub mod format;
pub mod make;
pub mod remove;
pub mod slot;
