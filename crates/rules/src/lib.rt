// Row rules: what rewrites rows on their way up.
#![tactic(auto)]

pub mod rule;
pub mod seconds;
pub mod select;
pub mod set_duration;
pub mod shift;
