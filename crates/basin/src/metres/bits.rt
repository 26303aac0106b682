ghost use Rattle.std.specs.Prelude.{◌≡◌};
ghost use Rattle.basin.specs.Bits.{bits_of, water_of};

use crate::metres::{Water, WaterBits};
use std::num::{f64_from_bits_with_nan, f64_to_bits_with_nan};

// The bits of the level and of the inflow.
impl From<Water> for WaterBits {
    ghost from_gives = { λ water bits. bits ≡ bits_of water };

    fn from(water: Water) -> WaterBits {
        let Water { level, inflow } = water;
        WaterBits {
            level: f64_to_bits_with_nan(level),
            inflow: f64_to_bits_with_nan(inflow),
        }
    }
}

// The level and the inflow of these bits.
impl From<WaterBits> for Water {
    ghost from_gives = { λ bits water. water ≡ water_of bits };

    fn from(bits: WaterBits) -> Water {
        let WaterBits { level, inflow } = bits;
        Water {
            level: f64_from_bits_with_nan(level),
            inflow: f64_from_bits_with_nan(inflow),
        }
    }
}
