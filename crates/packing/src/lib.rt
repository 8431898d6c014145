// Packing: a text file as a binary file that means the same.
#![tactic(auto)]

pub mod collecting;
pub mod file;
