ghost use Rattle.std.specs.Prelude.{◌≡◌, ◌<◌};
ghost use Rattle.model.specs.Tariffs.{tariff, hours, charged, hour_after};
ghost use Rattle.std.proofs.Common.{rules};

use crate::fault::ModelFault;
use crate::questions::Model as PlantModel;
use crate::tariff::{Charges, HOURS, Tariff};

// The hour after this one; after 23 comes 0.
fn hour_after(hour: u8) -> u8
    requires { hour < hours }
    ensures { result ≡ hour_after hour }
{
    if hour == HOURS - 1 { 0 } else { hour + 1 }
}

// The mark that is left when every setting but 0 has paid the charge of the hour.
fn charged(charges: &Charges, hour: u8, setting: u8, mark: u16) -> u16
    requires { hour < hours }
    ensures { result ≡ charged charges.now hour setting mark }
{
    if setting == 0 {
        mark
    } else {
        mark.saturating_sub(charges[usize::from(hour)])
    }
}

impl<M: PlantModel> PlantModel for Tariff<M> {
    type State = (u8, M::State);

    ghost meaning = { λ t. tariff t.charges (M.meaning t.model) };

    ghost lawful = { Prim.search rules };

    fn settings(&self) -> u8 {
        self.model.settings()
    }

    fn knows(&self, state: (u8, M::State)) -> bool {
        state.0 < HOURS && self.model.knows(state.1)
    }

    fn same(&self, present: (u8, M::State), measured: (u8, M::State)) -> bool {
        present.0 == measured.0 && self.model.same(present.1, measured.1)
    }

    fn step(
        &self,
        state: (u8, M::State),
        setting: u8,
    ) -> Result<(u16, (u8, M::State)), ModelFault> {
        let (hour, below) = state;
        if hour >= HOURS {
            return Err(ModelFault::UnknownState { layers: 0 });
        }
        let (mark, next) = self
            .model
            .step(below, setting)
            .map_err(ModelFault::handed_up)?;
        let left = charged(&self.charges, hour, setting, mark);
        Ok((left, (hour_after(hour), next)))
    }
}
