// Times and spans, payloads, rows and events.
#![tactic(auto)]

pub mod event;
pub mod payload;
pub mod row;
pub mod span;
pub mod starred;
