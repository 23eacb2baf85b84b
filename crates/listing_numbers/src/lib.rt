// The page that a listing is written on: lent bytes and the position behind what is written. The rest of the bytes stays as it is.
#![tactic(auto)]

ghost use Rattle.std.specs.Prelude.{[], ◌∷◌};
ghost use Rattle.listing.specs.Decimal.{text, decimal, signed};
ghost use Rattle.listing_numbers.specs.Put.{HasRoom, Puts};

use itoa::{Buffer, Integer};

// Of the crates below, passed on to those above.
pub use listing::{Counts, Demand, Problem, Vehicle, each, load, route_cost_route_distance};

// The bytes, and the position that is written at next.
#[derive(Drop)]
pub struct Page<'a> {
    pub out: &'a mut [u8],
    pub at: usize,
}

impl<'a> Page<'a> {
    // The bytes of a word.
    pub fn put_bytes(&mut self, word: &[u8])
        requires { HasRoom self.old word.now }
        ensures { Puts self.old word.now self.new }
    {
        let end = self.at + word.len();
        self.out[self.at..end].copy_from_slice(word);
        self.at = end;
    }

    // A number as it prints.
    fn put_number<I: Integer>(&mut self, n: I)
        requires { HasRoom self.old (I.text n) }
        ensures { Puts self.old (I.text n) self.new }
    {
        let mut buffer = Buffer::new();
        let digits = buffer.format(n).as_bytes();
        self.put_bytes(digits);
    }

    // n in decimal.
    pub fn put_decimal(&mut self, n: u64)
        requires { HasRoom self.old (decimal n) }
        ensures { Puts self.old (decimal n) self.new }
    {
        self.put_number(n);
    }

    // v in decimal, with its minus if it is negative.
    pub fn put_signed(&mut self, v: i32)
        requires { HasRoom self.old (signed v) }
        ensures { Puts self.old (signed v) self.new }
    {
        self.put_number(v);
    }

    // A number behind a word.
    pub fn put_field(&mut self, word: &[u8], n: u64)
        requires { HasRoom self.old (text (word.now ∷ decimal n ∷ [])) }
        ensures { Puts self.old (text (word.now ∷ decimal n ∷ [])) self.new }
    {
        self.put_bytes(word);
        self.put_decimal(n);
    }
}
