// A store that keeps its rows in an array, in rising id order.
#![tactic(auto)]

pub mod table;
