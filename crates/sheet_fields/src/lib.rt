// The fields of a line: a number, one that may be negative, one that may be none; and a field with the byte behind it.
#![tactic(auto)]

ghost use Rattle.std.specs.Fn.{FnOnceReturnsAtMut};
ghost use Rattle.sheet_text.specs.Text.{before as Text·before};
ghost use Rattle.sheet_text.specs.Text.{signed as Text·signed, optional as Text·optional};
ghost use Rattle.sheet_text.specs.Told.{Reads, told, given};

use sheet_text::numbers::{is_end, number};

// Of the crates below, passed on to those above.
pub use sheet_text::numbers::{byte, number as sheet_text_number, peek};
pub use sheet_text::words::ending;
pub use sheet_text::{Refusal, Text};

// What `read` reads, and the byte behind it.
pub fn before<T: Copy, F: FnOnce(&mut Text<'_>) -> Result<T, Refusal>>(
    text: &mut Text<'_>,
    read: F,
    b: u8,
) -> Result<T, Refusal>
    requires { F.IsAlwaysCallable read }
    ensures { (r : _) × (mid : _) × FnOnceReturnsAtMut F.FnOnce read text.old r mid × Reads (Text·before b (given r)) mid (told result) text.new }
{
    let v = read(text)?;
    byte(text, b)?;
    Ok(v)
}

// A number that may have a minus sign before it.
#[tactic(auto, using(sheet_text::proofs::ReadLaws::reads), unfolding(sheet_text::specs::Text::signed))]
pub fn signed(text: &mut Text<'_>) -> Result<i32, Refusal>
    ensures { Reads Text·signed text.old (told result) text.new }
{
    if peek(text) == b'-' as u16 {
        byte(text, b'-')?;
        let v = number(text)?;
        return Ok(-(v as i32));
    }
    let v = number(text)?;
    Ok(v as i32)
}

// A number, or a lone minus sign.
#[tactic(auto, using(sheet_text::proofs::ReadLaws::reads), unfolding(sheet_text::specs::Text::optional))]
pub fn optional(text: &mut Text<'_>) -> Result<Option<u32>, Refusal>
    ensures { Reads Text·optional text.old (told result) text.new }
{
    if peek(text) == b'-' as u16 {
        byte(text, b'-')?;
        let e = peek(text);
        return if is_end(e) {
            Ok(None)
        } else {
            Err(Refusal::SheetForm)
        };
    }
    let v = number(text)?;
    Ok(Some(v))
}
