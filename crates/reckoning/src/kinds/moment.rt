ghost use Rattle.std.specs.Prelude.{◌≡◌, max, refl};
ghost use Rattle.reckoning.specs.Kinds.{best_moment};
ghost use Rattle.reckoning.specs.KindLaws.{moment_laws};
ghost use Rattle.reckoning.specs.Making.{discount_of};

use crate::discounts::Discount;
use crate::grains::grains_of;
use crate::joinings::Reckoning;
use crate::kinds::{Discounted, Kind};
use model::HIGHEST_MARK;

// The best moment: only the mark that counts for most.
// In the field's terms: the discounted maximum of the rewards.
pub type BestMoment = Discounted<TakingLarger>;

// Does nothing: its contract says what a best moment means.
pub fn best_moment_meaning(moment: &BestMoment)
    ensures { ⟦<BestMoment as Reckoning>⟧.meaning moment.now ≡ best_moment (discount_of moment.now) }
{}

// The kind of the best moment: the larger of the two terms is taken.
#[derive(Clone, Copy, Debug, PartialEq, Eq)]
pub struct TakingLarger;

impl Kind for TakingLarger {
    ghost meaning_at = { best_moment };

    ghost join = { λ a b. max a b };

    ghost joins_terms = { λ g. refl };

    ghost lawful = { moment_laws };

    fn joined(mark: u64, rest: u64) -> u64 {
        mark.max(rest)
    }

    // The highest mark at once, whatever the discount.
    fn ceiling(_discount: Discount) -> u64 {
        grains_of(HIGHEST_MARK)
    }
}
