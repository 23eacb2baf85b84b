// The first and the last line of a listing and the line of a refusal.
#![tactic(auto)]

ghost use Rattle.std.specs.Prelude.{[], ◌∷◌};
ghost use Rattle.listing_numbers.specs.listing.Decimal.{text, decimal};
ghost use Rattle.listing_numbers.specs.listing.Listing.{first_line, last_line, refusal_line};
ghost use Rattle.listing_numbers.specs.listing.Written.{Room, Written};
ghost use Rattle.listing_numbers.specs.Put.{HasRoom, Puts};
ghost use Rattle.refusal.specs.Number.{number};

// Of the crates below, passed on to those above.
pub use listing_numbers::{Counts, Page, Problem, Vehicle};
pub use refusal::Refusal;

// A line of a word and a number.
fn put_line(page: &mut Page<'_>, word: &[u8], n: u64)
    requires { HasRoom page.old (text (word.now ∷ decimal n ∷ (10 ∷ []) ∷ [])) }
    ensures { Puts page.old (text (word.now ∷ decimal n ∷ (10 ∷ []) ∷ [])) page.new }
{
    page.put_field(word, n);
    page.put_bytes(b"\n");
}

// The first line of a listing.
pub fn put_first_line(page: &mut Page<'_>, routes: u64)
    requires { HasRoom page.old (first_line routes) }
    ensures { Puts page.old (first_line routes) page.new }
{
    put_line(page, b"routes ", routes);
}

// The last line of a listing.
pub fn put_last_line(page: &mut Page<'_>, counts: Counts, given: u64, left: u64)
    requires { HasRoom page.old (last_line counts.steps counts.draws given left) }
    ensures { Puts page.old (last_line counts.steps counts.draws given left) page.new }
{
    page.put_field(b"steps ", counts.steps);
    page.put_field(b" draws ", counts.draws);
    page.put_field(b" given ", given);
    put_line(page, b" left ", left);
}

// The line of a refusal.
pub fn put_refusal(page: &mut Page<'_>, number: u64)
    requires { HasRoom page.old (refusal_line number) }
    ensures { Puts page.old (refusal_line number) page.new }
{
    put_line(page, b"refused ", number);
}

// The line of a refusal, from the start of a slice on: the position behind it.
pub fn put_refused(out: &mut [u8], refusal: Refusal) -> usize
    requires { Room out.old 0 (refusal_line (number refusal)) }
    ensures { Written out.old 0 (refusal_line (number refusal)) out.new result }
{
    let mut page = Page { out, at: 0 };
    put_refusal(&mut page, refusal.number() as u64);
    page.at
}
