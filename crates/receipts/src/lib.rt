// What a query hands out, and the laws that make it final.
#![tactic(auto)]

pub mod laws;
pub mod line;
pub mod printed;
pub mod window;
