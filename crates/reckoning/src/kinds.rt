// Two kinds of reckoning. Both join the grains of the mark and the discounted rest.
pub mod making;
pub mod moment;
pub mod sum;

ghost use Rattle.std.specs.Prelude.{◌≡◌, ℕ, ◌<◌, min, ⊤};
ghost use Rattle.reckoning.specs.Discounts.{thousandths_of};
ghost use Rattle.reckoning.specs.Grains.{whole};
ghost use Rattle.reckoning.specs.Meaning.{Meaning, Laws};
ghost use Rattle.reckoning.specs.Kinds.{joined_terms};

use crate::discounts::Discount;
use crate::grains::grains_of;
use crate::joinings::Reckoning;
pub use moment::{BestMoment, TakingLarger};
use std::alloc::AllocError;
use std::marker::PhantomData;
pub use sum::{Adding, RunningSum};

// A kind of reckoning: how the two terms are joined, the grains of the mark and the discounted rest.
pub trait Kind {
    // What a reckoning of this kind means, under a discount in thousandths.
    ghost meaning_at: { ℕ → Meaning };

    // The joining of the two terms.
    ghost join: { ℕ → ℕ → ℕ };

    // The two terms joined, or the greatest u64 if that is less. No worth comes near it.
    fn joined(mark: u64, rest: u64) -> u64
        ensures { result ≡ min (join mark rest) u64.MAX };

    // The most that any list of marks is worth under this discount, in grains.
    fn ceiling(discount: Discount) -> u64
        ensures { result ≡ (meaning_at (thousandths_of discount)).ceiling };

    // Every reckoning of this kind joins the two terms so.
    ghost joins_terms: { (g : ℕ) → meaning_at g ≡ joined_terms join g (meaning_at g).ceiling };

    // Every reckoning of this kind meets the law of reckonings.
    ghost lawful: { (g : ℕ) → 0 < g → g < whole → Laws (meaning_at g) };
}

// A reckoning of this kind: its discount, and the ceiling that follows from it.
#[derive_where(Debug, PartialEq, Eq)]
pub struct Discounted<K: Kind> {
    discount: Discount,
    // in grains; it is kept because every joining asks for it
    ceiling: u64,
    kind: PhantomData<K>,
    ghost ceiling_of_discount: { ceiling ≡ (K.meaning_at (thousandths_of discount)).ceiling },
}

impl<K: Kind> Reckoning for Discounted<K> {
    ghost use Rattle.reckoning.specs.Making.{discount_of};

    ghost meaning = { λ r. K.meaning_at (discount_of r) };

    ghost lawful = { λ r. K.lawful (discount_of r) r.discount.above_0 r.discount.below_whole };

    fn discount(&self) -> u16 {
        self.discount.thousandths()
    }

    fn ceiling(&self) -> u64 {
        self.ceiling
    }

    #[tactic(auto, using(crate::proofs::WorthBounds::low_within_ceiling))]
    fn low(&self, mark: u16, rest: u64) -> u64 {
        K::joined(
            grains_of(mark),
            self.discount.rounded_down(rest.min(self.ceiling)),
        )
    }

    fn high(&self, mark: u16, rest: u64) -> u64 {
        K::joined(
            grains_of(mark),
            self.discount.rounded_up(rest.min(self.ceiling)),
        )
    }
}

// Written out: `derive` and `derive_where` of `Clone`, which `Copy` needs, are refused beside a ghost field where
// the type has a parameter.
impl<K: Kind> Copy for Discounted<K> {}

impl<K: Kind> Clone for Discounted<K> {
    ghost is_clone = { λ r copy. copy ≡ r };

    ghost is_infallible = { λ _. ⊤ };

    fn clone(&self) -> Result<Self, AllocError> {
        Ok(*self)
    }
}
