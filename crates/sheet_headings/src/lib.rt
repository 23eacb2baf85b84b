// Reads words, and the heading of a section.
#![tactic(auto)]

ghost use Rattle.sheet_text.specs.refusal.Number.{number as refusal_number};
ghost use Rattle.sheet_text.specs.Text.{word as Text·word};
ghost use Rattle.sheet_text.specs.Told.{Reads, told};
ghost use Rattle.sheet_headings.specs.Heading.{heading as Text·heading};

use sheet_text::numbers::{byte, number};
use sheet_text::{Refusal, Text};

// The bytes of a word.
fn word(text: &mut Text<'_>, w: &[u8]) -> Result<(), Refusal>
    ensures { Reads (Text·word w.now) text.old (told result) text.new }
{
    for b in w {
        byte(text, *b)?;
    }
    Ok(())
}

// A section's name and its count, which is refused with `refusal` unless it lies between least and most.
#[tactic(auto, using(sheet_text::proofs::ReadLaws::reads), unfolding(crate::specs::Heading::heading))]
pub fn heading(
    text: &mut Text<'_>,
    name: &[u8],
    least: usize,
    most: usize,
    refusal: Refusal,
) -> Result<usize, Refusal>
    ensures { Reads (Text·heading name.now least most (refusal_number refusal)) text.old (told result) text.new }
{
    word(text, name)?;
    byte(text, b' ')?;
    let n = number(text)? as usize;
    if !(least..=most).contains(&n) {
        return Err(refusal);
    }
    byte(text, b'\n')?;
    Ok(n)
}
