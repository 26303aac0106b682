ghost use Rattle.std.specs.Prelude.{◌≡◌};
ghost use Rattle.reckoning.specs.Grains.{counted, grains_of};

use model::HIGHEST_MARK;

// The grains in a point. A point is one unit of mark.
pub const GRAINS_IN_POINT: u64 = 1000;

// The grains of a mark; one above 1,000 counts as 1,000.
pub(crate) fn grains_of(mark: u16) -> u64
    ensures { result ≡ grains_of (counted mark) }
{
    GRAINS_IN_POINT * u64::from(mark.min(HIGHEST_MARK))
}
