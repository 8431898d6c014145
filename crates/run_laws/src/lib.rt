// The run as a definition, and its laws.
#![tactic(auto)]

pub mod laws;
