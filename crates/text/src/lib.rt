// The text form of event files.
#![tactic(auto)]

pub mod checking;
pub mod form;
pub mod lexer;
