// Row rules, layers and piles as definitions, and their laws.
#![tactic(auto)]

pub mod laws;
