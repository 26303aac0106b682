ghost use Rattle.std.specs.Prelude.{◌≡◌, ◌+◌, refl};
ghost use Rattle.reckoning.specs.Kinds.{running_sum};
ghost use Rattle.reckoning.specs.KindLaws.{sum_laws};
ghost use Rattle.reckoning.specs.Making.{discount_of};

use crate::discounts::{Discount, WHOLE};
use crate::grains::grains_of;
use crate::joinings::Reckoning;
use crate::kinds::{Discounted, Kind};
use model::HIGHEST_MARK;

// The running sum: every mark counts, and a later one counts less.
// In the field's terms: the discounted sum of the rewards.
pub type RunningSum = Discounted<Adding>;

// Does nothing: its contract says what a running sum means.
pub fn running_sum_meaning(sum: &RunningSum)
    ensures { ⟦<RunningSum as Reckoning>⟧.meaning sum.now ≡ running_sum (discount_of sum.now) }
{}

// The kind of the running sum: the two terms are added.
#[derive(Clone, Copy, Debug, PartialEq, Eq)]
pub struct Adding;

impl Kind for Adding {
    ghost meaning_at = { running_sum };

    ghost join = { λ a b. a + b };

    ghost joins_terms = { λ g. refl };

    ghost lawful = { sum_laws };

    fn joined(mark: u64, rest: u64) -> u64 {
        mark.saturating_add(rest)
    }

    // The highest mark at every step: its grains, divided by what the discount leaves of a whole, rounded up.
    fn ceiling(discount: Discount) -> u64 {
        let left = WHOLE - discount.thousandths();
        (grains_of(HIGHEST_MARK) * u64::from(WHOLE)).div_ceil(u64::from(left))
    }
}
