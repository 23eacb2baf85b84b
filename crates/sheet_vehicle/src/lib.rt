// Reads the section of the vehicle.
#![tactic(auto)]

ghost use Rattle.sheet_format.specs.sheet_text.Told.{Reads, told};
ghost use Rattle.sheet_format.specs.Form.{vehicle_line, vehicle as Form·vehicle};

use sheet_format::places::optional_float_before;
use sheet_format::{before, heading, sheet_text_number as number, signed};

// Of the crates below, passed on to those above.
pub use sheet_format::{Refusal, Text, Vehicle};

// Every sheet's depot.
const DEPOT: u32 = 0;

// The vehicle's line.
#[tactic(auto, using(crate::proofs::Readers::readers), unfolding(sheet_format::specs::Form::vehicle_line))]
fn vehicle_line(text: &mut Text<'_>) -> Result<Vehicle, Refusal>
    ensures { Reads vehicle_line text.old (told result) text.new }
{
    let capacity = before(text, signed, b' ')?;
    let depot = before(text, number, b' ')?;
    if depot != DEPOT {
        return Err(Refusal::SheetForm);
    }
    let fixed = before(text, number, b' ')?;
    let per = before(text, number, b' ')?;
    let max_distance = optional_float_before(text, b' ')?;
    let max_duration = optional_float_before(text, b'\n')?;
    Ok(Vehicle {
        capacity,
        depot_id: 0,
        fixed_cost: fixed as f64,
        cost_per_distance: per as f64,
        max_distance,
        max_duration,
        rest: None,
    })
}

// The section of the vehicle.
#[tactic(auto, using(crate::proofs::Readers::readers), unfolding(sheet_format::specs::Form::vehicle))]
pub fn vehicle(text: &mut Text<'_>) -> Result<Vehicle, Refusal>
    ensures { Reads Form·vehicle text.old (told result) text.new }
{
    heading(text, b"vehicle", 1, 1, Refusal::SheetForm)?;
    vehicle_line(text)
}
