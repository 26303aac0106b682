// Reckonings of worth: what a list of marks is worth, in grains, from below and from above.
#![tactic(auto)]

pub mod discounts;
pub mod fault;
mod grains;
pub mod joinings;
pub mod kinds;
pub mod worths;

pub use discounts::Discount;
pub use fault::BadDiscount;
pub use grains::GRAINS_IN_POINT;
pub use joinings::Reckoning;
pub use kinds::{Adding, BestMoment, Discounted, Kind, RunningSum, TakingLarger};
pub use worths::{high_worth, low_worth, width};
