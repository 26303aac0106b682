ghost use Rattle.std.specs.Prelude.{◌≡◌};
ghost use Rattle.reckoning.specs.Making.{discount_number, refused_discount};

// Refusal 10, with the discount: it is not 1 to 999.
// It is a type of its own, and not one type for every refusal of one case, so that its value is named a discount.
#[derive(Clone, Copy, PartialEq, Eq, Debug)]
pub struct BadDiscount {
    pub discount: u16,
}

impl BadDiscount {
    // The number of the refusal, 10.
    pub fn number(self) -> u8
        ensures { result ≡ discount_number self }
    {
        10
    }

    // The discount that is out of range.
    pub fn discount(self) -> u16
        ensures { result ≡ refused_discount self }
    {
        self.discount
    }
}
