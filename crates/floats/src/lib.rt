// Whole numbers as floats and back. Of a float nothing is claimed but its name: what is found by floats is tested in whole numbers.

#![tactic(auto)]

ghost use Rattle.std.specs.Prelude.{◌≡◌, ◌<◌};
ghost use Rattle.floats.specs.Inner.Floats.{float_of, low_bits, near_of, below_of};

// A whole number as a float. By its bits: a cast would wait for what the register held before.
pub fn float_of(x: u64) -> f64
    requires { x < 4503599627370496 }
    ensures { result ≡ float_of x }
{
    f64::from_bits(4841369599423283200 + x) - 4503599627370496.0
}

// The bits of a float below 2^52; 0 of what is no number.
fn low_bits(y: f64) -> u64
    ensures { (result ≡ low_bits y) × (result < 4503599627370496) }
{
    if y == y {
        return f64::to_bits(y) % 4503599627370496;
    }
    0
}

// The whole number nearest to a float from 0 to 2^52; of any other some number below 2^52.
pub fn near(x: f64) -> u64
    ensures { (result ≡ near_of x) × (result < 4503599627370496) }
{
    low_bits(x + 4503599627370496.0)
}

// The whole number nearest to half less than a float from 1 to 2^52; of any other some number below 2^52.
pub fn below(x: f64) -> u64
    ensures { (result ≡ below_of x) × (result < 4503599627370496) }
{
    low_bits(x + 4503599627370495.5)
}
