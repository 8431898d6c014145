// The refusals that the engine tells, and the faults that say where one was met.
#![tactic(auto)]

pub mod fault;
pub mod refusal;
