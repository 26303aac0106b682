// Models of a drainage plant: known states, numbered settings, the mark of a step and where it leads.
#![tactic(auto)]

pub mod fault;
pub mod questions;
pub mod tariff;
pub mod walking;

pub use fault::ModelFault;
pub use questions::{HIGHEST_MARK, MOST_SETTINGS, Model};
pub use tariff::{BadCharge, Charges, Tariff};
pub use walking::{WalkFault, walk};
