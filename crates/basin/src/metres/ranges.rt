ghost use Rattle.std.specs.Prelude.{◌≡◌};
ghost use Rattle.basin.specs.Ranges.{within as lies_within, above_to};

// Whether x lies from low to high; not-a-number never does. It is written as `above` is, for which there is no
// range to ask.
pub(crate) fn within(x: f64, low: f64, high: f64) -> bool
    ensures { result ≡ lies_within low high x }
{
    low <= x && x <= high
}

// Whether x lies above low, to high; not-a-number never does.
pub(crate) fn above(x: f64, low: f64, high: f64) -> bool
    ensures { result ≡ above_to low high x }
{
    low < x && x <= high
}
