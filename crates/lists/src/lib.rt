// Lists that lie in a value.
#![tactic(auto)]

pub mod list;
