ghost use Rattle.std.specs.Prelude.{◌≡◌, Some};
ghost use Rattle.table.specs.Faults.{number as number_of, value as value_of, RefusalsNumbered};
ghost use Rattle.table.specs.Listing.{refused_text};

use std::fmt;

// Why a table file is refused. Records are numbered from 0.
#[derive(Clone, Copy, PartialEq, Eq, Debug)]
pub enum TableFault {
    // refusal 3, with the length in bytes: the file is empty or its length is no multiple of 8
    BadLength { length: usize },
    // refusal 4, with the last record: its setting is above 15 or the count is not N × K
    BadCount { record: usize },
    // refusal 5, with the record: it is not the one of its state and setting
    OutOfOrder { record: usize },
    // refusal 6, with the record: its next state is N or more
    UnknownNext { record: usize },
    // refusal 7, with the record: its mark is above 1,000
    HighMark { record: usize },
}

impl TableFault {
    // The number of the refusal, 3 to 7.
    pub fn number(self) -> u8
        ensures value { result ≡ number_of self }
        ensures refusals_numbered { RefusalsNumbered }
    {
        match self {
            TableFault::BadLength { .. } => 3,
            TableFault::BadCount { .. } => 4,
            TableFault::OutOfOrder { .. } => 5,
            TableFault::UnknownNext { .. } => 6,
            TableFault::HighMark { .. } => 7,
        }
    }

    // What is returned with it: the length for 3, the record for 4 to 7.
    pub fn value(self) -> usize
        ensures { result ≡ value_of self }
    {
        match self {
            TableFault::BadLength { length } => length,
            TableFault::BadCount { record }
            | TableFault::OutOfOrder { record }
            | TableFault::UnknownNext { record }
            | TableFault::HighMark { record } => record,
        }
    }
}

// `refused N at P`.
impl fmt::Display for TableFault {
    ghost output = { λ e. Some (refused_text (number_of e) (value_of e)) };

    fn fmt<W: fmt::Write>(&self, f: &mut fmt::Formatter<W>) -> fmt::Result {
        write!(f, "refused {} at {}", self.number(), self.value())
    }
}
