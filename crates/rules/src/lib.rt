// What a search and a station answer with, their rules, and what holds of every plan and its gap.
// No function here begins, expands, works or takes.
#![tactic(auto)]

pub mod answers;
pub mod fault;
pub mod theorems;

pub use answers::{Report, Row, Stop, Taken};
pub use fault::{CallName, Cause, StationFault, StepFault};
