// The run: a new query, fed from two sources until both have ended or a fault is met.
#![tactic(auto)]

mod closing;
mod feeding;
pub mod report;
pub mod running;
mod turning;
