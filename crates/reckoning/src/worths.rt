#![tactic(auto, using(crate::proofs::WorthBounds::worth_bounds))]

ghost use Rattle.std.specs.Prelude.{◌≡◌};
ghost use Rattle.reckoning.specs.Worths.{low_worth, high_worth, width as width_at, LowAtMostExact, ExactAtMostHigh, ContinuedAtMostHigh, ExactAtMostCeiling, WorthsWithinWidth};

use crate::discounts::Discount;
use crate::joinings::Reckoning;

// The low worth of a list of marks, in grains: joined from the last mark to the first, beginning with 0.
pub fn low_worth<R: Reckoning>(reckoning: &R, marks: &[u16]) -> u64
    ensures value { result ≡ low_worth (R.meaning reckoning.now) marks.now }
    ensures at_most_exact { LowAtMostExact (R.meaning reckoning.now) marks.now }
{
    marks
        .iter()
        .rfold(0, |worth, mark| reckoning.low(*mark, worth))
}

// The high worth of a list of marks, in grains: joined from the last mark to the first, beginning with the ceiling.
pub fn high_worth<R: Reckoning>(reckoning: &R, marks: &[u16]) -> u64
    ensures value { result ≡ high_worth (R.meaning reckoning.now) marks.now }
    ensures at_least_exact { ExactAtMostHigh (R.meaning reckoning.now) marks.now }
    ensures at_least_any_continuation { ContinuedAtMostHigh (R.meaning reckoning.now) marks.now }
    ensures exact_at_most_ceiling { ExactAtMostCeiling (R.meaning reckoning.now) marks.now }
{
    let ceiling = reckoning.ceiling();
    marks
        .iter()
        .rfold(ceiling, |worth, mark| reckoning.high(*mark, worth))
}

// The width at a depth, in grains: the ceiling at 0, and one deeper for each step of depth.
pub fn width<R: Reckoning>(reckoning: &R, depth: u8) -> u64
    ensures value { result ≡ width_at (R.meaning reckoning.now) depth }
    ensures worths_within_width { WorthsWithinWidth (R.meaning reckoning.now) depth }
{
    // in range, as the law of every reckoning says
    let Ok(discount) = Discount::try_from(reckoning.discount()) else {
        unreachable!()
    };
    let mut width = reckoning.ceiling();
    for _ in 0..depth {
        width = discount.rounded_up(width) + 1;
    }
    width
}
