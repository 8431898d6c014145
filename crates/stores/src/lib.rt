// Stores: where a query keeps its rows.
#![tactic(auto)]

pub mod search;
pub mod store;
pub mod walk;
