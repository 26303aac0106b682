ghost use Rattle.std.specs.Prelude.{◌≡◌};
ghost use Rattle.model.specs.Faults.{number as number_of, layers as layers_of, handed_up, RefusalsNumbered};

// Why a model refuses a step. `layers` counts the models that handed the refusal up:
// 0 where it arose, one more for each model above, never above 255.
#[derive(Clone, Copy, PartialEq, Eq, Debug)]
pub enum ModelFault {
    // refusal 1, with the layers: the state is unknown
    UnknownState { layers: u8 },
    // refusal 2, with the layers: the setting is K or more
    UnknownSetting { layers: u8 },
}

impl ModelFault {
    // The number of the refusal, 1 or 2.
    pub fn number(self) -> u8
        ensures value { result ≡ number_of self }
        ensures refusals_numbered { RefusalsNumbered }
    {
        match self {
            ModelFault::UnknownState { .. } => 1,
            ModelFault::UnknownSetting { .. } => 2,
        }
    }

    // How many models handed the refusal up.
    pub fn layers(self) -> u8
        ensures { result ≡ layers_of self }
    {
        match self {
            ModelFault::UnknownState { layers } | ModelFault::UnknownSetting { layers } => layers,
        }
    }

    // The same refusal as the model above gives it: one layer more.
    pub fn handed_up(self) -> ModelFault
        ensures { result ≡ handed_up self }
    {
        let layers = self.layers().saturating_add(1);
        match self {
            ModelFault::UnknownState { .. } => ModelFault::UnknownState { layers },
            ModelFault::UnknownSetting { .. } => ModelFault::UnknownSetting { layers },
        }
    }
}
