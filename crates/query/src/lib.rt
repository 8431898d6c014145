// The query: two sources' rows, joined by key and time, and handed out window by window.
#![tactic(auto)]

pub mod engine;
mod input;
