// A basin of water in metres: a level and an inflow, both doubles, and up to eight settings.
pub mod bits;
pub mod making;
mod ranges;
pub mod stepping;

ghost use Rattle.std.specs.Prelude.{◌≡◌, ◌≤◌, true, length};
ghost use Rattle.std.specs.Float.Ieee.{fits, le};
ghost use Rattle.std.specs.Float.{binary64};
ghost use Rattle.basin.specs.Numbers.{zero};

// A level in metres and an inflow in metres a step.
#[derive(Clone, Copy, PartialEq, Debug)]
pub struct Water {
    pub level: f64,
    pub inflow: f64,
}

// The bits of a level and of an inflow. The two are two plain structs, one of doubles to work on and one of words
// to keep, and not one with a parameter: docs/DECISIONS.md has this form.
#[derive(Clone, Copy, PartialEq, Eq, Debug)]
pub struct WaterBits {
    pub level: u64,
    pub inflow: u64,
}

// What a basin can be set to do for a step.
#[derive(Clone, Copy, PartialEq, Debug)]
pub enum Setting {
    // nothing flows out
    Rest,
    // a pump takes out its drop, 0 to 10 metres
    Pump(f64),
    // a gate lets out its share of the level, 0 to 1
    Gate(f64),
}

// A setting with its cost, 0 to 500, which is taken off the mark: one parameter of a basin.
#[derive(Clone, Copy, PartialEq, Debug)]
pub struct CostedSetting {
    pub setting: Setting,
    pub cost: u16,
}

// The first four parameters of a basin, as they are given: each may lie in its range or out of it.
#[derive(Clone, Copy, PartialEq, Debug)]
pub struct Measures {
    // how deep the basin is, above 0, to 100 metres
    pub depth: f64,
    // the level to be kept, 0 to depth, in metres
    pub target: f64,
    // how far from the target the level may be for the full mark, above 0, to depth, in metres
    pub band: f64,
    // the part of the inflow that is left after a step, 0 to 1
    pub fade: f64,
}

// The places for settings: a basin has 1 to 8.
const PLACES: usize = 8;

// A basin whose parameters are in range. Of its eight places for settings the first `count` are used.
#[derive(Clone, Copy, Debug)]
pub struct Basin {
    measures: Measures,
    settings: [CostedSetting; PLACES],
    // K, the number of settings. It stands beside a plain array, and both are no `Vec`, since a basin
    // is copied and takes no memory from the heap; behind the array, since moving a basin then takes less.
    count: u8,
    ghost one_setting: { 1 ≤ count },
    ghost few_settings: { count ≤ 8 },
    ghost places_for_settings: { length settings ≡ 8 },
    ghost depth_is_double: { fits binary64 measures.depth ≡ true },
    ghost depth_above_0: { le zero measures.depth ≡ true },
}
