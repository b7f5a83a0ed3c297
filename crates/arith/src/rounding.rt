// Quotients rounded down and up, without a step that leaves 64 bits.

ghost use Rattle.std.specs.Prelude.{◌≡◌, ◌+◌, ◌*◌, ◌/◌, ◌<◌, ◌≤◌, ◌^◌};
ghost use Rattle.arith.specs.Inner.Rounding.{scaled_down, rounded_up};

// x * m / c, rounded down: the whole part of x / c and its remainder are scaled apart.
pub fn scaled(x: u64, m: u64, c: u64) -> u64
    requires { (0 < c) × (c * m < 2 ^ 64) × ((x / c + 1) * m < 2 ^ 64) }
    ensures { result ≡ scaled_down x m c }
{
    (x / c) * m + ((x % c) * m) / c
}

// x * (m * n) / c, rounded down, where c * m * n leaves 64 bits: by m first, then by n from the remainder.
pub fn scaled_twice(x: u64, m: u64, n: u64, c: u64) -> u64
    requires { (0 < c) × (0 < n) × (c * m < 2 ^ 64) × (c * n < 2 ^ 64) × ((x / c + 1) * (m * n) < 2 ^ 64) }
    ensures { result ≡ scaled_down x (m * n) c }
{
    let r = ((x % c) * m) % c;
    scaled(x, m, c) * n + (r * n) / c
}

// x * y / (m * n), rounded down, where x * y leaves 64 bits: over m first, by the parts of y, then over n.
pub fn split_product(x: u64, y: u64, m: u64, n: u64) -> u64
    requires { (0 < m) × (0 < n) × (x * m < 2 ^ 64) × (x * (y / m + 1) < 2 ^ 64) }
    ensures { result ≡ scaled_down x y (m * n) }
{
    (x * (y / m) + (x * (y % m)) / m) / n
}

// The same rounded up.
pub fn split_product_up(x: u64, y: u64, m: u64, n: u64) -> u64
    requires { (0 < m) × (0 < n) × (x * m < 2 ^ 64) × (x * (y / m + 1) < 2 ^ 64) }
    ensures { result ≡ rounded_up (x * y) (m * n) }
{
    ceil_div(x * (y / m) + ceil_div(x * (y % m), m), n)
}

// x / d, rounded up.
pub fn ceil_div(x: u64, d: u64) -> u64
    requires { 0 < d }
    ensures { (result ≡ rounded_up x d) × (result ≤ x / d + 1) }
{
    x.div_ceil(d)
}
