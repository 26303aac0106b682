ghost use Rattle.std.specs.Prelude.{◌≡◌, length};
ghost use Rattle.model.specs.Meaning.{step as stepped};
ghost use Rattle.basin.specs.Making.{parameters};
ghost use Rattle.basin.specs.Stepping.{water, basin, outflow_of, raw_level, setting_numbered, next_level, next_inflow, grade};
ghost use Rattle.basin.specs.Basins.{basin_laws};

use crate::metres::ranges::within;
use crate::metres::{Basin, CostedSetting, Measures, Setting, Water, WaterBits};
use model::{Model as PlantModel, ModelFault};

// The greatest inflow that is known, in metres a step.
const LARGEST_INFLOW: f64 = 10.0;

impl Setting {
    // What flows out of a basin at this level: nothing, the drop, or the share of the level.
    fn outflow(self, level: f64) -> f64
        ensures { result ≡ outflow_of self level }
    {
        match self {
            Setting::Rest => 0.0,
            Setting::Pump(drop) => drop,
            Setting::Gate(share) => share * level,
        }
    }

    // The level after a step, in a basin that had neither bottom nor rim.
    fn raw_level(self, state: Water) -> f64
        ensures { result ≡ raw_level self state }
    {
        (state.level + state.inflow) - self.outflow(state.level)
    }
}

impl Measures {
    // The raw level if it lies from 0 to the depth, the depth if it is above that, else 0.
    fn next_level(self, raw: f64) -> f64
        ensures { result ≡ next_level self.depth raw }
    {
        if within(raw, 0.0, self.depth) {
            raw
        } else if raw > self.depth {
            self.depth
        } else {
            0.0
        }
    }

    // The inflow, faded, if that lies from 0 to 10, else 0.
    fn next_inflow(self, inflow: f64) -> f64
        ensures { result ≡ next_inflow self.fade inflow }
    {
        let faded = inflow * self.fade;
        if within(faded, 0.0, LARGEST_INFLOW) {
            faded
        } else {
            0.0
        }
    }

    // The mark of a level before the cost is taken off: 1,000 if it is at most a band off the
    // target, 500 if at most two, else 0.
    fn grade(self, level: f64) -> u16
        ensures { result ≡ grade self.target self.band level }
    {
        let off = (level - self.target).abs();
        if off <= self.band {
            1000
        } else if off <= 2.0 * self.band {
            500
        } else {
            0
        }
    }
}

impl Basin {
    // The settings that the basin was made with, each with its cost.
    fn costed_settings(&self) -> &[CostedSetting]
        ensures { result.now ≡ (parameters self.now).settings }
    {
        &self.settings[..usize::from(self.count)]
    }

    // K, the number of settings.
    fn settings_count(&self) -> u8
        ensures { result ≡ length (parameters self.now).settings }
    {
        self.count
    }

    // The setting with this number, with its cost, if it is below K.
    fn setting_numbered(&self, setting: u8) -> Option<CostedSetting>
        ensures { result ≡ setting_numbered (parameters self.now) setting }
    {
        self.costed_settings().get(usize::from(setting)).copied()
    }
}

// The questions and the step on doubles, passed by value. The model has the same on their bits, as
// which a state lies in memory: docs/DECISIONS.md has the two apart.
impl Basin {
    // Whether the level lies from 0 to the depth and the inflow from 0 to 10.
    pub fn knows_water(&self, state: Water) -> bool
        ensures { result ≡ (water (parameters self.now)).known state }
    {
        within(state.level, 0.0, self.measures.depth) && within(state.inflow, 0.0, LARGEST_INFLOW)
    }

    // Whether both numbers of the measured state compare equal to those of the present one.
    pub fn same_water(&self, present: Water, measured: Water) -> bool
        ensures { result ≡ (water (parameters self.now)).same present measured }
    {
        present == measured
    }

    // The mark of a step and the state that it leads to, or the refusal: by 1 if the state is
    // unknown, otherwise by 2 if the setting is K or more. A refusal arises here, so it has 0 layers.
    pub fn step_water(&self, state: Water, setting: u8) -> Result<(u16, Water), ModelFault>
        ensures { result ≡ stepped (water (parameters self.now)) state setting }
    {
        if !self.knows_water(state) {
            return Err(ModelFault::UnknownState { layers: 0 });
        }
        let costed = self
            .setting_numbered(setting)
            .ok_or(ModelFault::UnknownSetting { layers: 0 })?;
        let raw = costed.setting.raw_level(state);
        let level = self.measures.next_level(raw);
        let inflow = self.measures.next_inflow(state.inflow);
        let mark = self.measures.grade(level).saturating_sub(costed.cost);
        Ok((mark, Water { level, inflow }))
    }
}

// A basin as a model, whose states are the bits of its waters.
impl PlantModel for Basin {
    type State = WaterBits;

    ghost meaning = { λ b. basin (parameters b) };

    ghost lawful = { basin_laws };

    fn settings(&self) -> u8 {
        self.settings_count()
    }

    fn knows(&self, state: WaterBits) -> bool {
        self.knows_water(state.into())
    }

    fn same(&self, present: WaterBits, measured: WaterBits) -> bool {
        self.same_water(present.into(), measured.into())
    }

    fn step(&self, state: WaterBits, setting: u8) -> Result<(u16, WaterBits), ModelFault> {
        let (mark, next) = self.step_water(state.into(), setting)?;
        Ok((mark, next.into()))
    }
}
