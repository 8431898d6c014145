// A store that finds its rows by a hash of their id.
#![tactic(auto)]

mod entry;
pub mod store;
