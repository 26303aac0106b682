ghost use Rattle.std.specs.Prelude.{◌≡◌};
ghost use Rattle.rules.specs.declared.fault.CallName.TheVariants.{Work};
ghost use Rattle.rules.specs.Faults.{number as number_of, cause_number, cause_of, step_of, call_of, step_number, step_layers, step_at, step_refused, named, RefusalsNumbered};

use model::ModelFault;

// The calls of a station.
#[derive(Clone, Copy, PartialEq, Eq, Debug)]
pub enum CallName {
    Begin,
    Work,
    Take,
    Abandon,
    Issue,
    Observe,
    Row,
}

// Why a making left its station shut.
#[derive(Clone, Copy, PartialEq, Eq, Debug)]
pub enum Cause {
    // 11: the state is unknown
    UnknownState,
    // 12: the switch limit is above 32
    LimitTooHigh,
    // 13: there are fewer than K + 2 cells
    TooFewCells,
}

// A step that a model refused: the model's fault, the number of the row or of the node that the step
// was made from, and its setting. This is the fault of a search; 19 is made of it.
// It hands on the model's number and layers as a walk's fault does, which has no setting to tell.
#[derive(Clone, Copy, PartialEq, Eq, Debug)]
pub struct StepFault {
    pub fault: ModelFault,
    pub place: usize,
    pub setting: u8,
}

// Why a station refuses a call.
#[derive(Clone, Copy, PartialEq, Eq, Debug)]
pub enum StationFault {
    // refusal 11: the state is unknown
    UnknownState,
    // refusal 14: a search is open
    SearchOpen,
    // refusal 15: no search is open
    NoSearch,
    // refusal 16: the number of rows to keep is above 32 or above the rows
    KeepTooLarge,
    // refusal 17: no node is expanded
    NothingExpanded,
    // refusal 18: there is no row, or a search with none kept
    NothingToIssue,
    // refusal 19, with the model's fault, the row or node, the setting, and the call:
    // the model refused a step, or its K is not the making's
    StepRefused { step: StepFault, call: CallName },
    // refusal 20, with the cause: the station is shut
    Shut { cause: Cause },
}

impl Cause {
    // The number of the cause, 11, 12 or 13.
    pub fn number(self) -> u8
        ensures { result ≡ cause_number self }
    {
        match self {
            Cause::UnknownState => 11,
            Cause::LimitTooHigh => 12,
            Cause::TooFewCells => 13,
        }
    }
}

impl StepFault {
    // The number of the model's refusal, 1 or 2.
    pub fn number(self) -> u8
        ensures { result ≡ step_number self }
    {
        self.fault.number()
    }

    // How many models handed the model's refusal up.
    pub fn layers(self) -> u8
        ensures { result ≡ step_layers self }
    {
        self.fault.layers()
    }

    // The same fault at this row or node, under this setting.
    pub fn at(self, place: usize, setting: u8) -> StepFault
        ensures { result ≡ step_at place setting self.fault }
    {
        StepFault {
            place,
            setting,
            ..self
        }
    }
}

impl StationFault {
    // The number of the refusal.
    pub fn number(self) -> u8
        ensures value { result ≡ number_of self }
        ensures refusals_numbered { RefusalsNumbered }
    {
        match self {
            StationFault::UnknownState => 11,
            StationFault::SearchOpen => 14,
            StationFault::NoSearch => 15,
            StationFault::KeepTooLarge => 16,
            StationFault::NothingExpanded => 17,
            StationFault::NothingToIssue => 18,
            StationFault::StepRefused { .. } => 19,
            StationFault::Shut { .. } => 20,
        }
    }

    // What is returned with 20: the cause.
    pub fn cause(self) -> Option<Cause>
        ensures { result ≡ cause_of self }
    {
        match self {
            StationFault::Shut { cause } => Some(cause),
            _ => None,
        }
    }

    // What is returned with 19: the model's fault, the row or node and the setting.
    pub fn step(self) -> Option<StepFault>
        ensures { result ≡ step_of self }
    {
        match self {
            StationFault::StepRefused { step, .. } => Some(step),
            _ => None,
        }
    }

    // What is returned with 19: the call.
    pub fn call(self) -> Option<CallName>
        ensures { result ≡ call_of self }
    {
        match self {
            StationFault::StepRefused { call, .. } => Some(call),
            _ => None,
        }
    }

    // The same refusal, and if it is 19, with this call.
    pub fn in_call(self, call: CallName) -> StationFault
        ensures { result ≡ named call self }
    {
        match self {
            StationFault::StepRefused { step, .. } => StationFault::StepRefused { step, call },
            other => other,
        }
    }
}

// A model's fault with no place yet: row or node 0, setting 0. No `Option`: a refusal of another K has just these
// numbers, and where there is a place, `at` gives it.
impl From<ModelFault> for StepFault {
    ghost from_gives = { λ f r. r ≡ step_at 0 0 f };

    fn from(fault: ModelFault) -> StepFault {
        StepFault {
            fault,
            place: 0,
            setting: 0,
        }
    }
}

// A search's fault is one of work; begin and issue name themselves (`in_call`).
impl From<StepFault> for StationFault {
    ghost from_gives = { λ f r. r ≡ step_refused Work f };

    fn from(step: StepFault) -> StationFault {
        StationFault::StepRefused {
            step,
            call: CallName::Work,
        }
    }
}
