// Event files: what the text form and the binary form share.
#![tactic(auto)]

pub mod fields;
pub mod form;
pub mod judging;
pub mod reader;
