// Bytes and numbers.
ghost use Rattle.std.specs.Prelude.{◌≡◌, ◌+◌, ◌<◌, ◌^◌, IfOk};
ghost use Rattle.sheet_text.specs.Text.{got, byte_at, is_end};
ghost use Rattle.sheet_text.specs.Text.{byte as Text·byte, digits as Text·digits, number as Text·number};
ghost use Rattle.sheet_text.specs.Told.{Reads, told};

use crate::Text;
use refusal::Refusal;

// The byte that comes next, 256 at the end of the text.
pub fn peek(text: &Text<'_>) -> u16
    ensures value { result ≡ byte_at text.now.bytes.now text.now.at }
    ensures at_bound { result < 256 → text.now.at + 1 < 2 ^ 64 }
{
    text.bytes.get(text.at).map_or(256, |byte| *byte as u16)
}

// One given byte.
#[tactic(auto, unfolding(crate::specs::Text::byte))]
pub fn byte(text: &mut Text<'_>, b: u8) -> Result<(), Refusal>
    ensures { Reads (Text·byte b) text.old (told result) text.new }
{
    let x = peek(text);
    if x == b as u16 {
        text.at += 1;
        Ok(())
    } else {
        Err(Refusal::SheetForm)
    }
}

// The value of the digits that come next, at most 9 of them.
fn digits(text: &mut Text<'_>) -> u32
    ensures read { Reads (Text·digits 9 0) text.old (got result) text.new }
    ensures value_bound { result < 1000000000 }
{
    let mut v: u32 = 0;
    for _k in 0..9usize {
        let b = peek(text);
        if b < 48 || b > 57 {
            break;
        }
        v = v * 10 + (b - 48) as u32;
        text.at += 1;
    }
    v
}

// Whether a token ends before x: a space, LF or the end of the text.
pub fn is_end(x: u16) -> bool
    ensures { result ≡ is_end x }
{
    x == 32 || x == 10 || x == 256
}

// 1 to 9 digits, behind which the token ends.
#[tactic(auto, using(crate::proofs::ReadLaws::reads, crate::proofs::TextLaws::digit_tests), unfolding(crate::specs::Text::number))]
pub fn number(text: &mut Text<'_>) -> Result<u32, Refusal>
    ensures read { Reads Text·number text.old (told result) text.new }
    ensures short { IfOk result (λ v. v < 1000000000) }
{
    let b = peek(text);
    if b < 48 || b > 57 {
        return Err(Refusal::SheetForm);
    }
    let v = digits(text);
    let e = peek(text);
    if is_end(e) {
        Ok(v)
    } else {
        Err(Refusal::SheetForm)
    }
}
