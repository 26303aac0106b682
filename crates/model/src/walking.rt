ghost use Rattle.std.specs.Prelude.{◌≡◌};
ghost use Rattle.model.specs.Meaning.{step as stepped};
ghost use Rattle.model.specs.Walk.{at_place, walk as walked, walk_number, walk_layers, walk_place, WalksToKnown};

use crate::fault::ModelFault;
use crate::questions::Model;

// A step that was refused on a walk, and its place in the list of settings, from 0.
// It hands on the model's number and layers as the fault of a search does; one type for both would
// give a walk's fault a setting beside the list that it walks.
#[derive(Clone, Copy, PartialEq, Eq, Debug)]
pub struct WalkFault {
    pub fault: ModelFault,
    pub place: usize,
}

impl WalkFault {
    // The number of the model's refusal, 1 or 2.
    pub fn number(self) -> u8
        ensures { result ≡ walk_number self }
    {
        self.fault.number()
    }

    // How many models handed the refusal up.
    pub fn layers(self) -> u8
        ensures { result ≡ walk_layers self }
    {
        self.fault.layers()
    }

    // The place of the refused step, from 0.
    pub fn place(self) -> usize
        ensures { result ≡ walk_place self }
    {
        self.place
    }
}

// The state that the step at this place of a walk leads to, or its refusal.
fn step_at<M: Model>(
    model: &M,
    state: M::State,
    setting: u8,
    place: usize,
) -> Result<M::State, WalkFault>
    ensures { result ≡ at_place place (stepped (M.meaning model.now) state setting) }
{
    let (_, next) = model
        .step(state, setting)
        .map_err(|fault| WalkFault { fault, place })?;
    Ok(next)
}

// The state after the settings in their order, or the first refusal with its place.
pub fn walk<M: Model>(model: &M, start: M::State, settings: &[u8]) -> Result<M::State, WalkFault>
    ensures value { result ≡ walked (M.meaning model.now) start settings.now }
    ensures known_walks_end_known { WalksToKnown (M.meaning model.now) start settings.now result }
{
    let mut state = start;
    for (place, setting) in settings.iter().enumerate() {
        state = step_at(model, state, *setting, place)?;
    }
    Ok(state)
}
