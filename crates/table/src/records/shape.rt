ghost use Rattle.std.specs.Prelude.{◌≡◌, ◌+◌, ◌*◌, ◌≤◌, ◌&&◌, ◌==◌, nat_lt, is_some, IfSome};
ghost use Rattle.model.specs.Meaning.{most_settings};
ghost use Rattle.table.specs.Layout.{most_states, count};
ghost use Rattle.table.specs.Reading.{fault_in, record_fault, first_there, unless};

use crate::fault::TableFault;
use crate::records::Record;
use crate::records::reading::chunks;
use model::{HIGHEST_MARK, MOST_SETTINGS};

// The numbers of states and settings of a table.
#[derive(Clone, Copy, PartialEq, Eq, Debug)]
pub(crate) struct Shape {
    // N
    pub(crate) states: usize,
    // K
    pub(crate) settings: u8,
    ghost few_states: { states ≤ most_states },
    ghost one_setting: { 1 ≤ settings },
    ghost few_settings: { settings ≤ most_settings },
}

impl Shape {
    // The shape of a table of this many records that ends with this one,
    // or none where its setting is above 15 or the number is not N × K.
    pub(crate) fn ending_with(last: Record, number: usize) -> Option<Shape>
        ensures complete { is_some result
            ≡ (nat_lt last.setting most_settings && number == (last.state + 1) * (last.setting + 1)) }
        ensures sizes { IfSome result (λ s. (s.states ≡ last.state + 1) × (s.settings ≡ last.setting + 1)) }
    {
        let setting = u8::try_from(last.setting).ok()?;
        if setting >= MOST_SETTINGS {
            return None;
        }
        let shape = Shape {
            states: usize::from(last.state) + 1,
            settings: setting + 1,
        };
        (number == shape.record_count()).then_some(shape)
    }

    // One record for each state and setting.
    pub(crate) fn record_count(self) -> usize
        ensures { result ≡ self.states * self.settings }
    {
        self.states * usize::from(self.settings)
    }

    // Refuses this record as the one numbered i: by 5 if it is out of order, else by 6 if its
    // next state is unknown, else by 7 if its mark is too high.
    fn check(self, i: usize, found: Record) -> Result<(), TableFault>
        ensures { result ≡ unless (fault_in self.states self.settings i found) tt }
    {
        let settings = usize::from(self.settings);
        if usize::from(found.state) != i / settings || usize::from(found.setting) != i % settings {
            return Err(TableFault::OutOfOrder { record: i });
        }
        if usize::from(found.next) >= self.states {
            return Err(TableFault::UnknownNext { record: i });
        }
        if found.mark > HIGHEST_MARK {
            return Err(TableFault::HighMark { record: i });
        }
        Ok(())
    }

    // Refuses the first record in these bytes that breaks a rule.
    #[tactic(auto, using(crate::proofs::Firsts::first_later))]
    pub(crate) fn check_records(self, bytes: &[u8]) -> Result<(), TableFault>
        ensures { result
            ≡ unless (first_there (record_fault bytes.now self.states self.settings) 0 (count bytes.now)) tt }
    {
        let records = chunks(bytes);
        for (i, chunk) in records.iter().enumerate() {
            self.check(i, Record::from(*chunk))?;
        }
        Ok(())
    }
}
