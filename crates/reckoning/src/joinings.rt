ghost use Rattle.std.specs.Prelude.{◌≡◌};
ghost use Rattle.reckoning.specs.Meaning.{Meaning, Laws};

// A reckoning of worth: it joins a mark with the worth of the marks behind it, in whole grains,
// once rounded down and once rounded up.
// In the field's terms: a discounted return, with a lower and an upper bound.
pub trait Reckoning {
    // What the reckoning means, as one record.
    ghost meaning: { Self → Meaning };

    // The discount in thousandths, 1 to 999: what a later step counts for, against the step before it.
    fn discount(&self) -> u16
        ensures { result ≡ (meaning self.now).discount };

    // The most that any list of marks is worth, in grains.
    fn ceiling(&self) -> u64
        ensures { result ≡ (meaning self.now).ceiling };

    // The low joining of a mark and the grains of the rest. A mark above 1,000 counts as 1,000,
    // a rest above the ceiling as the ceiling.
    fn low(&self, mark: u16, rest: u64) -> u64
        ensures { result ≡ (meaning self.now).low mark rest };

    // The high joining of a mark and the grains of the rest, which count as in the low joining.
    fn high(&self, mark: u16, rest: u64) -> u64
        ensures { result ≡ (meaning self.now).high mark rest };

    // What every reckoning owes.
    ghost lawful: { (r : Self) → Laws (meaning r) };
}
