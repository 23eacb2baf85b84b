// What a number of a text may be read as, and which numbers stand for such a value.
ghost use Rattle.std.specs.Prelude.{◌≡◌, ℕ, Option, Some};
ghost use Rattle.stored.specs.Cells.{flag_of, narrow, signed, float};

use stored_values::{float_of, int_of};

// A type whose values stand in a text as numbers.
pub trait FromNumber: Sized {
    // The value that a number stands for, or none.
    ghost from_number: { ℕ → Option Self };

    fn from_number(number: u64) -> Option<Self>
        ensures { result ≡ from_number number };
}

impl FromNumber for u64 {
    ghost from_number = { Some };

    fn from_number(number: u64) -> Option<u64> {
        Some(number)
    }
}

impl FromNumber for usize {
    ghost from_number = { Some };

    fn from_number(number: u64) -> Option<usize> {
        Some(number as usize)
    }
}

impl FromNumber for u16 {
    ghost from_number = { narrow 65536 };

    fn from_number(number: u64) -> Option<u16> {
        u16::try_from(number).ok()
    }
}

impl FromNumber for u8 {
    ghost from_number = { narrow 256 };

    fn from_number(number: u64) -> Option<u8> {
        u8::try_from(number).ok()
    }
}

// 0 or 1.
impl FromNumber for bool {
    ghost from_number = { flag_of };

    fn from_number(number: u64) -> Option<bool> {
        match number {
            0 => Some(false),
            1 => Some(true),
            _ => None,
        }
    }
}

// A two's complement of 32 bits.
impl FromNumber for i32 {
    ghost from_number = { signed };

    fn from_number(number: u64) -> Option<i32> {
        u32::try_from(number).ok().map(int_of)
    }
}

// The bits of a float.
impl FromNumber for f64 {
    ghost from_number = { float };

    fn from_number(number: u64) -> Option<f64> {
        Some(float_of(number))
    }
}
