// A table of rows that are found by a hash of their id.
#![tactic(auto)]

mod home;
mod slot;
pub mod table;
