ghost use Rattle.std.specs.Prelude.{◌≡◌};
ghost use Rattle.table.specs.Tables.{file, table};
ghost use Rattle.table.specs.Lawful.{table_laws};

use crate::records::Table;
use model::{Model as PlantModel, ModelFault};

impl PlantModel for Table {
    type State = u16;

    ghost meaning = { λ t. table (file t) };

    ghost lawful = { table_laws };

    fn settings(&self) -> u8 {
        self.shape.settings
    }

    fn knows(&self, state: u16) -> bool {
        usize::from(state) < self.shape.states
    }

    fn same(&self, present: u16, measured: u16) -> bool {
        present == measured
    }

    fn step(&self, state: u16, setting: u8) -> Result<(u16, u16), ModelFault> {
        if !self.knows(state) {
            return Err(ModelFault::UnknownState { layers: 0 });
        }
        let found = self
            .record_of(state, setting)
            .ok_or(ModelFault::UnknownSetting { layers: 0 })?;
        Ok((found.mark, found.next))
    }
}
