// Sources: where events come from, one at a time.
#![tactic(auto)]

pub mod listed;
pub mod source;
