// A basin of water as a model: its state is a level and an inflow, its settings are to rest, a pump and a gate.
#![tactic(auto)]

pub mod fault;
pub mod metres;

pub use fault::BadParameter;
pub use metres::{Basin, CostedSetting, Measures, Setting, Water, WaterBits};
