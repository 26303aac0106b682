ghost use Rattle.std.specs.Prelude.{◌≡◌};
ghost use Rattle.model.specs.Meaning.{Meaning, Laws, step as stepped};

use crate::fault::ModelFault;

// The most settings that a model has.
pub const MOST_SETTINGS: u8 = 16;

// The highest mark.
pub const HIGHEST_MARK: u16 = 1000;

// A model of a plant: known states and K settings numbered from 0. For each known state and
// setting it has one mark, 0 to 1,000, and one next state, also known.
// In the field's terms: a deterministic decision process with states, actions and rewards.
pub trait Model {
    // What tells one moment of the plant from another; each kind of model brings its own.
    type State: Copy;

    // What the model means, as one record.
    ghost meaning: { Self → Meaning Self.State };

    // K, the number of settings, 1 to 16.
    fn settings(&self) -> u8
        ensures { result ≡ (meaning self.now).settings };

    // Whether the state is known.
    fn knows(&self, state: Self::State) -> bool
        ensures { result ≡ (meaning self.now).known state };

    // Whether the measured state is the same as the present one.
    fn same(&self, present: Self::State, measured: Self::State) -> bool
        ensures { result ≡ (meaning self.now).same present measured };

    // The mark of a step and the state that it leads to, or the refusal: by 1 if the state is
    // unknown, otherwise by 2 if the setting is K or more, and never else.
    fn step(&self, state: Self::State, setting: u8) -> Result<(u16, Self::State), ModelFault>
        ensures { result ≡ stepped (meaning self.now) state setting };

    // What every model owes.
    ghost lawful: { (m : Self) → Laws Self.State (meaning m) };
}
