// The functions of Rust's f64 that a route planner calls, for every f64.
#![tactic(auto)]

ghost use Rattle.std.specs.Prelude.{◌≡◌};
ghost use Rattle.floats.specs.Binary64.{+∞, is_finite, max, min, abs, is_sign_negative, total_key, total_less};

// +infinity, with its value as a promise.
pub fn infinity() -> f64
    ensures { result ≡ +∞ }
{
    f64::INFINITY
}

// The absolute value of x: -0.0 becomes 0.0, and a NaN stays a NaN.
pub fn abs(x: f64) -> f64
    ensures { result ≡ abs x }
{
    x.abs()
}

// Whether x is a number: neither an infinity nor a NaN.
pub fn is_finite(x: f64) -> bool
    ensures { result ≡ is_finite x }
{
    x.is_finite()
}

// The larger of a and b. Where exactly one is a NaN the other is returned; b where they are equal.
#[tactic(auto, unfolding(floats::specs::Binary64::max))]
pub fn max(a: f64, b: f64) -> f64
    ensures { result ≡ max a b }
{
    if a > b || b.is_nan() { a } else { b } // a NaN is never the larger
}

// The smaller of a and b. Where exactly one is a NaN the other is returned; b where they are equal.
#[tactic(auto, unfolding(floats::specs::Binary64::min))]
pub fn min(a: f64, b: f64) -> f64
    ensures { result ≡ min a b }
{
    if a < b || b.is_nan() { a } else { b } // a NaN is never the smaller
}

// Whether x has its sign bit set, as -0.0 has it. At a NaN, whose sign has no meaning here, false.
pub fn is_sign_negative(x: f64) -> bool
    ensures { result ≡ is_sign_negative x }
{
    if x == 0.0 { 1.0 / x < 0.0 } else { x < 0.0 }
}

// The place of x in the order of Rust's `f64::total_cmp`, counted from 0. A NaN is the one with its sign clear.
fn total_key(x: f64) -> u64
    ensures { result ≡ total_key x }
{
    if x.is_nan() {
        return 0xfff8_0000_0000_0000;
    }
    let bits = f64::to_bits(x);
    if bits < 0x8000_0000_0000_0000 {
        return bits + 0x8000_0000_0000_0000;
    }
    0xffff_ffff_ffff_ffff - bits
}

// Whether x comes before y by Rust's `f64::total_cmp`: -0.0 comes before 0.0.
pub fn total_less(x: f64, y: f64) -> bool
    ensures { result ≡ total_less x y }
{
    total_key(x) < total_key(y)
}
