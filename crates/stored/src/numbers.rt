// Unsigned decimals in a text, split by spaces and line ends, read from the front on.
ghost use Rattle.std.specs.Prelude.{◌≡◌, ◌≤◌, ℕ, length, IfSome};

use crate::cells::FromNumber;

// What is left of a text.
#[derive(Clone, Copy)]
pub struct Numbers<'a> {
    pub rest: &'a [u8],
}

fn is_blank(byte: u8) -> bool {
    byte == b' ' || byte == b'\n'
}

// How many bytes at the start of a text are blank, or how many are not.
fn run_len(text: &[u8], blank: bool) -> usize
    ensures { result ≤ length text.now }
{
    text.iter()
        .position(|byte| is_blank(*byte) != blank)
        .unwrap_or(text.len())
}

// The text behind the blanks at its start.
fn behind_blanks(text: &[u8]) -> &[u8]
    ensures { length result.now ≤ length text.now }
{
    &text[run_len(text, true)..]
}

// A number with one digit more, or nothing where the byte is no digit or the number does not fit.
fn with_digit(value: u64, byte: u8) -> Option<u64> {
    if !byte.is_ascii_digit() {
        return None;
    }
    value.checked_mul(10)?.checked_add((byte - b'0') as u64)
}

// The number of a token, or nothing where it is none.
fn value_of(token: &[u8]) -> Option<u64> {
    if token.is_empty() {
        return None;
    }
    token
        .iter()
        .try_fold(0, |value, byte| with_digit(value, *byte))
}

impl<'a> Numbers<'a> {
    // The next number, or nothing where none is next, and then the same is left as before.
    pub fn next(&mut self) -> Option<u64>
        ensures { length self.new.rest.now ≤ length self.old.rest.now }
    {
        let text = behind_blanks(self.rest);
        let (token, rest) = text.split_at(run_len(text, false));
        let value = value_of(token)?;
        self.rest = rest;
        Some(value)
    }

    // The next number, which is none where it is more than `most`.
    pub fn at_most(&mut self, most: u64) -> Option<u64>
        ensures { IfSome result (λ number. number ≤ most) }
    {
        self.next().filter(|number| *number <= most)
    }

    // The value that the next number stands for.
    pub fn read<T: FromNumber>(&mut self) -> Option<T>
        ensures { IfSome result (λ x. (number : ℕ) × (T.from_number number ≡ Some x)) }
    {
        T::from_number(self.next()?)
    }

    // Reads a count and that many values into the front of a slice, and gives that part. A count over the room is none.
    pub fn fill<'b, T: FromNumber + Copy>(&mut self, room: &'b mut [T]) -> Option<&'b mut [T]>
        ensures { IfSome result (λ part. length part.now ≤ length room.old) }
    {
        let count = self.at_most(room.len() as u64)?;
        let part = &mut room[..count as usize];
        for cell in part.iter_mut() {
            *cell = self.read()?;
        }
        Some(part)
    }

    // Whether nothing but blanks is left.
    pub fn at_end(&self) -> bool {
        behind_blanks(self.rest).is_empty()
    }
}
