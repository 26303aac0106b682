ghost use Rattle.std.specs.Prelude.{◌≡◌};
ghost use Rattle.reckoning.specs.Making.{discount_made, made_with};

use crate::discounts::Discount;
use crate::fault::BadDiscount;
use crate::kinds::{Discounted, Kind};
use std::marker::PhantomData;

impl<K: Kind> Discounted<K> {
    // The reckoning with this discount, which is refused by 10 if it is not 1 to 999.
    pub fn new(discount: u16) -> Result<Self, BadDiscount>
        ensures { discount_made result ≡ made_with discount }
    {
        let discount = Discount::try_from(discount)?;
        Ok(Discounted {
            discount,
            ceiling: K::ceiling(discount),
            kind: PhantomData,
        })
    }
}
