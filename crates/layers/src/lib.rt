// Layers: sources that rewrite what comes from below by a row rule.
#![tactic(auto)]

pub mod layer;
pub mod rewrite;
