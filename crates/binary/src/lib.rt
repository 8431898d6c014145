// The binary form of event files: reading and writing.
#![tactic(auto)]

pub mod form;
pub mod kind;
mod spelling;
pub mod writer;
