// The values that stored numbers stand for: a float by its bits, a signed number by its two's complement, a kind of call by its number.
#![tactic(auto)]

ghost use Rattle.std.specs.Prelude.{◌≡◌};
ghost use Rattle.std.specs.Float.{binary64};
ghost use Rattle.std.specs.Float.Ieee.{of_bits, to_bits};
ghost use Rattle.std.proofs.Common.{to_z};
ghost use Rattle.std.specs.Int.{w32};

mod kinds;

pub use kinds::Kind;

// The float of a pattern. Every pattern of a NaN is the NaN.
#[tactic(auto, using(crate::proofs::ValueLaws::value_laws))]
pub fn float_of(bits: u64) -> f64
    ensures { result ≡ of_bits binary64 bits }
{
    if bits % 0x8000_0000_0000_0000 > 0x7ff0_0000_0000_0000 {
        return f64::NAN;
    }
    f64::from_bits(bits)
}

// The pattern of a float, for a NaN the one with only the highest digit set.
#[tactic(auto, using(crate::proofs::ValueLaws::value_laws))]
pub fn bits_of(x: f64) -> u64
    ensures { result ≡ to_bits binary64 x }
{
    if x.is_nan() {
        return 0x7ff8_0000_0000_0000;
    }
    x.to_bits()
}

// The signed number of a two's complement.
pub fn int_of(bits: u32) -> i32
    ensures { result ≡ to_z w32 bits }
{
    bits.cast_signed()
}
