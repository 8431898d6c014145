// Weighing shelf numbers: from lines of decimal numbers to what each number weighs.
#![tactic(auto)]

pub mod input;
pub mod line;
pub mod weighed;
