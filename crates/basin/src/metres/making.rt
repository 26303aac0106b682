ghost use Rattle.std.specs.Prelude.{◌≡◌, ◌≤◌, not, if◌then◌else◌, map, length, position, None, Ok, Err};
ghost use Rattle.model.specs.First.{first_false};
ghost use Rattle.basin.specs.Faults.{refusal_8};
ghost use Rattle.basin.specs.Ranges.{ranges, measure_ranges, settings_ranges, strength_in_range, setting_in_range};
ghost use Rattle.basin.specs.Making.{given_parameters, parameters, viewed, judged, made, AcceptedIfAllInRange, RefusedAtFirstOutOfRange};

use crate::fault::BadParameter;
use crate::metres::ranges::{above, within};
use crate::metres::{Basin, CostedSetting, Measures, PLACES, Setting};

// The greatest depth, in metres.
const DEEPEST: f64 = 100.0;

// The greatest drop of a pump, in metres.
const LARGEST_DROP: f64 = 10.0;

// The greatest cost of a setting.
const HIGHEST_COST: u16 = 500;

// The numbers of the parameters; settings are numbered on from the first.
const DEPTH: u8 = 1;

const TARGET: u8 = 2;

const BAND: u8 = 3;

const FADE: u8 = 4;

const COUNT: u8 = 5;

const FIRST_SETTING: u8 = 6;

// Refuses the parameter with this number if it is out of range.
fn refuse_unless(in_range: bool, parameter: u8) -> Result<(), BadParameter>
    ensures { result ≡ (if in_range then Ok tt else Err (refusal_8 parameter)) }
{
    if in_range {
        Ok(())
    } else {
        Err(BadParameter { parameter })
    }
}

impl Measures {
    // Refuses the first measure that is out of range, if there is one.
    fn check(self) -> Result<(), BadParameter>
        ensures { result ≡ judged (first_false 1 (measure_ranges self)) tt }
    {
        refuse_unless(above(self.depth, 0.0, DEEPEST), DEPTH)?;
        refuse_unless(within(self.target, 0.0, self.depth), TARGET)?;
        refuse_unless(above(self.band, 0.0, self.depth), BAND)?;
        refuse_unless(within(self.fade, 0.0, 1.0), FADE)
    }
}

impl Setting {
    // Whether the drop of a pump, or the share of a gate, is in range.
    fn in_range(self) -> bool
        ensures { result ≡ strength_in_range self }
    {
        match self {
            Setting::Rest => true,
            Setting::Pump(drop) => within(drop, 0.0, LARGEST_DROP),
            Setting::Gate(share) => within(share, 0.0, 1.0),
        }
    }
}

impl CostedSetting {
    // Whether both the setting and its cost are in range.
    fn in_range(self) -> bool
        ensures { result ≡ setting_in_range self }
    {
        self.setting.in_range() && self.cost <= HIGHEST_COST
    }
}

// The place of the first setting that is out of range.
fn first_setting_out(settings: &[CostedSetting]) -> Option<usize>
    ensures { result ≡ position (λ costed. not (setting_in_range costed)) settings.now }
{
    settings.iter().position(|costed| !costed.in_range())
}

// Refuses the first setting that is out of range, if there is one.
#[tactic(auto, using(model::proofs::Firsts::first_by_place))]
fn check_each(settings: &[CostedSetting]) -> Result<(), BadParameter>
    requires { length settings.now ≤ 8 }
    ensures { result ≡ judged (first_false 6 (map setting_in_range settings.now)) tt }
{
    // A `match`, since `map_or(Ok(()), ..)` would say it backwards. The place is below 8; numbers counted
    // beside the settings (`zip`) would need no `as`, but more words.
    match first_setting_out(settings) {
        Some(place) => Err(BadParameter {
            parameter: FIRST_SETTING + place as u8,
        }),
        None => Ok(()),
    }
}

// Refuses the number of settings if it is out of range, else the first setting that is.
fn check_settings(settings: &[CostedSetting]) -> Result<(), BadParameter>
    ensures { result ≡ judged (first_false 5 (settings_ranges settings.now)) tt }
{
    refuse_unless((1..=PLACES).contains(&settings.len()), COUNT)?;
    check_each(settings)
}

impl Basin {
    // The basin with these parameters, which are all in range. In the places behind the settings
    // stands rest at no cost.
    fn with_parameters(measures: Measures, settings: &[CostedSetting]) -> Basin
        requires { first_false 1 (ranges (given_parameters measures settings.now)) ≡ None }
        ensures { parameters result ≡ given_parameters measures settings.now }
    {
        let mut places = [CostedSetting {
            setting: Setting::Rest,
            cost: 0,
        }; PLACES];
        places[..settings.len()].copy_from_slice(settings);
        Basin {
            measures,
            // at most 8: `try_from` would need a case that never comes
            count: settings.len() as u8,
            settings: places,
        }
    }

    // A basin with these parameters, or the refusal of the first that is out of range: depth above
    // 0, to 100; target 0 to depth; band above 0, to depth; fade 0 to 1; 1 to 8 settings; then each
    // setting with its cost.
    pub fn new(measures: Measures, settings: &[CostedSetting]) -> Result<Basin, BadParameter>
        ensures value { viewed parameters result ≡ made (given_parameters measures settings.now) }
        ensures accepted_if_all_in_range { AcceptedIfAllInRange (given_parameters measures settings.now) (viewed parameters result) }
        ensures refused_at_first_out_of_range { RefusedAtFirstOutOfRange (given_parameters measures settings.now) (viewed parameters result) }
    {
        measures.check()?;
        check_settings(settings)?;
        Ok(Basin::with_parameters(measures, settings))
    }
}
