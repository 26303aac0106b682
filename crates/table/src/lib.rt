// Models read off a table file: the rules of its records, reading it, stepping it, and telling what it holds.
#![tactic(auto)]

pub mod fault;
pub mod listing;
pub mod records;

pub use fault::TableFault;
pub use records::{Record, Table};
