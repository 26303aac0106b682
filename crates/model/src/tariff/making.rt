ghost use Rattle.std.specs.Prelude.{◌≡◌, not, position};
ghost use Rattle.model.specs.TariffMaking.{charge_number, charge_hour, charge_in_range, first_high_charge, refused_at, Makes};

use crate::tariff::{BadCharge, Charges, HIGHEST_CHARGE, Tariff};

impl BadCharge {
    // The number of the refusal, 9.
    pub fn number(self) -> u8
        ensures { result ≡ charge_number self }
    {
        9
    }

    // The hour whose charge is out of range.
    pub fn hour(self) -> u8
        ensures { result ≡ charge_hour self }
    {
        self.hour
    }
}

// Whether a charge is in range.
fn in_range(charge: u16) -> bool
    ensures { result ≡ charge_in_range charge }
{
    charge <= HIGHEST_CHARGE
}

// The place of the first charge that is out of range.
fn first_charge_out(charges: &Charges) -> Option<usize>
    ensures { result ≡ position (λ charge. not (charge_in_range charge)) charges.now }
{
    charges.iter().position(|charge| !in_range(*charge))
}

// Refuses the first charge that is out of range.
fn check(charges: &Charges) -> Result<(), BadCharge>
    ensures { result ≡ refused_at (first_high_charge charges.now) tt }
{
    // A `match`, since `map_or(Ok(()), ..)` would say it backwards. The hour is below 24; hours counted
    // beside the charges (`zip`) would need no `as`, but more words.
    match first_charge_out(charges) {
        Some(hour) => Err(BadCharge { hour: hour as u8 }),
        None => Ok(()),
    }
}

impl<M: Drop> Tariff<M> {
    // A tariff with these charges, one for each hour, over this model.
    pub fn new(charges: Charges, model: M) -> Result<Tariff<M>, BadCharge>
        ensures { Makes charges model result }
    {
        check(&charges)?;
        Ok(Tariff { charges, model })
    }
}
