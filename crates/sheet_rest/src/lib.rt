// Reads the section of the break, and puts the break into the vehicle.
#![tactic(auto)]

ghost use Rattle.std.specs.Prelude.{◌≡◌};
ghost use Rattle.sheet_format.specs.sheet_text.Told.{Reads, told};
ghost use Rattle.sheet_format.specs.Form.{rest_line, break, with_rest};

use sheet_format::{
    Refusal, Text, Vehicle, VehicleBreak, before, heading, sheet_text_number as number,
};

// The break's line.
#[tactic(auto, using(crate::proofs::Readers::readers), unfolding(sheet_format::specs::Form::rest_line))]
fn rest_line(text: &mut Text<'_>) -> Result<Option<VehicleBreak>, Refusal>
    ensures { Reads rest_line text.old (told result) text.new }
{
    let earliest = before(text, number, b' ')?;
    let latest = before(text, number, b' ')?;
    let duration = before(text, number, b'\n')?;
    Ok(Some(VehicleBreak {
        earliest: earliest as f64,
        latest: latest as f64,
        duration: duration as f64,
    }))
}

// The section of the break.
pub fn rest(text: &mut Text<'_>) -> Result<Option<VehicleBreak>, Refusal>
    ensures { Reads break text.old (told result) text.new }
{
    let m = heading(text, b"break", 0, 1, Refusal::SheetForm)?;
    if m == 0 {
        return Ok(None);
    }
    rest_line(text)
}

// The vehicle with its break.
pub fn with_rest(v: Vehicle, rest: Option<VehicleBreak>) -> Vehicle
    ensures { result ≡ with_rest v rest }
{
    Vehicle { rest, ..v }
}
