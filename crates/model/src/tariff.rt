// A tariff over any model: each hour of the day charges every setting but 0.
pub mod making;
pub mod stepping;

ghost use Rattle.std.specs.Prelude.{ℕ, ◌<◌, ◌≤◌, slice_index};
ghost use Rattle.model.specs.Tariffs.{hours, highest_charge};

// The hours of a day.
pub const HOURS: u8 = 24;

// A charge for each hour of the day.
pub type Charges = [u16; 24];

// The highest charge.
pub const HIGHEST_CHARGE: u16 = 1000;

// Refusal 9, with the hour: the charge of this hour is above 1,000.
// It is a type of its own, and not one type for every refusal of one case, so that its value is named an hour.
#[derive(Clone, Copy, PartialEq, Eq, Debug)]
pub struct BadCharge {
    pub hour: u8,
}

// A model whose state is an hour, 0 to 23, and the state of the model below.
#[derive(Drop)]
pub struct Tariff<M> {
    // what each hour takes off the mark of every setting but 0
    charges: Charges,
    model: M,
    ghost charges_in_range: { (h : ℕ) → h < hours → slice_index charges h ≤ highest_charge },
}
