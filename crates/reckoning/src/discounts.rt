ghost use Rattle.std.specs.Prelude.{◌≡◌, ◌*◌, ◌/◌, ◌<◌, ◌≤◌};
ghost use Rattle.reckoning.specs.Grains.{whole, highest_ceiling, rounded_up};

use crate::fault::BadDiscount;

// The thousandths in a whole; a discount is in thousandths.
pub(crate) const WHOLE: u16 = 1000;

// A discount: what a later step counts for, against the step before it.
#[derive(Clone, Copy, Debug, PartialEq, Eq)]
pub struct Discount {
    // 1 to 999
    thousandths: u16,
    ghost above_0: { 0 < thousandths },
    ghost below_whole: { thousandths < whole },
}

impl TryFrom<u16> for Discount {
    ghost use Rattle.reckoning.specs.Making.{thousandths_made, made_with};

    type Error = BadDiscount;

    ghost try_from_gives = { λ g r. thousandths_made r ≡ made_with g };

    // The discount of so many thousandths, which is refused by 10 if they are not 1 to 999.
    fn try_from(thousandths: u16) -> Result<Discount, BadDiscount> {
        if Discount::in_range(thousandths) {
            Ok(Discount { thousandths })
        } else {
            Err(BadDiscount {
                discount: thousandths,
            })
        }
    }
}

impl Discount {
    ghost use Rattle.reckoning.specs.Discounts.{thousandths_of};
    ghost use Rattle.reckoning.specs.Making.{discount_in_range};

    // Whether so many thousandths are in range.
    fn in_range(thousandths: u16) -> bool
        ensures { result ≡ discount_in_range thousandths }
    {
        (1..WHOLE).contains(&thousandths)
    }

    // The discount in thousandths, 1 to 999.
    pub fn thousandths(self) -> u16
        ensures { result ≡ thousandths_of self }
    {
        self.thousandths
    }

    // The grains times the discount, rounded down.
    pub(crate) fn rounded_down(self, grains: u64) -> u64
        requires { grains ≤ highest_ceiling }
        ensures { result ≡ thousandths_of self * grains / whole }
    {
        u64::from(self.thousandths) * grains / u64::from(WHOLE)
    }

    // The grains times the discount, rounded up.
    pub(crate) fn rounded_up(self, grains: u64) -> u64
        requires { grains ≤ highest_ceiling }
        ensures value { result ≡ rounded_up (thousandths_of self * grains) whole }
        ensures at_most_grains { result ≤ grains }
    {
        (u64::from(self.thousandths) * grains).div_ceil(u64::from(WHOLE))
    }
}
