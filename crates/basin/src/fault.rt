ghost use Rattle.std.specs.Prelude.{◌≡◌};
ghost use Rattle.basin.specs.Faults.{number as number_of, parameter as parameter_of, RefusalsNumbered};

// The number of the refusal of a parameter that is out of range.
const OUT_OF_RANGE: u8 = 8;

// Refusal 8, with the number of the parameter, from 1: the first parameter of a basin that is out of range.
// A struct and no enum of parameters: what the contracts say of refusal 8 they say of every number, and
// settings are numbered on from 6. It is a type of its own, and not one type for every refusal of one case, so
// that its value is named a parameter.
#[derive(Clone, Copy, PartialEq, Eq, Debug)]
pub struct BadParameter {
    pub parameter: u8,
}

impl BadParameter {
    // The number of the refusal, 8.
    pub fn number(self) -> u8
        ensures value { result ≡ number_of self }
        ensures refusals_numbered { RefusalsNumbered }
    {
        OUT_OF_RANGE
    }

    // The number of the parameter that is out of range, from 1.
    pub fn parameter(self) -> u8
        ensures { result ≡ parameter_of self }
    {
        self.parameter
    }
}
