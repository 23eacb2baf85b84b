// A place's line.
ghost use Rattle.sheet_fields.specs.sheet_text.Told.{Reads, told};
ghost use Rattle.sheet_format.specs.Form.{optional_float_before as Form·optional-float-before};
ghost use Rattle.sheet_format.specs.Form.{window as Form·window, place as Form·place};

use models::customer::{Customer, TimeWindow};
use sheet_fields::{
    Refusal, Text, before, byte, optional, peek, sheet_text_number as number, signed,
};

// A place's line: its demand, and what the evaluation of a route reads of it.
#[derive(Clone, Copy)]
pub struct Place {
    pub demand: i32,
    pub customer: Customer,
}

// READY and DUE: two numbers, or two lone minus signs.
#[tactic(auto, using(crate::proofs::Readers::readers), unfolding(crate::specs::Form::window))]
fn window(text: &mut Text<'_>) -> Result<Option<TimeWindow>, Refusal>
    ensures { Reads Form·window text.old (told result) text.new }
{
    if peek(text) == b'-' as u16 {
        byte(text, b'-')?; // READY
        byte(text, b' ')?;
        byte(text, b'-')?; // DUE
        return Ok(None);
    }
    let ready = before(text, number, b' ')?;
    let due = number(text)?;
    let window = TimeWindow {
        ready: ready as f64,
        due: due as f64,
    };
    Ok(Some(window))
}

// A number that may be none, as a float, and the byte behind it: a limit of the vehicle, or PENALTY.
#[tactic(auto, using(crate::proofs::Readers::readers), unfolding(crate::specs::Form::optional_float_before))]
pub fn optional_float_before(text: &mut Text<'_>, b: u8) -> Result<Option<f64>, Refusal>
    ensures { Reads (Form·optional-float-before b) text.old (told result) text.new }
{
    let n = before(text, optional, b)?;
    Ok(n.map(|n| n as f64))
}

// A place's line.
#[tactic(auto, using(crate::proofs::Readers::readers), unfolding(crate::specs::Form::place))]
pub fn place_line(text: &mut Text<'_>) -> Result<Place, Refusal>
    ensures { Reads Form·place text.old (told result) text.new }
{
    let demand = before(text, signed, b' ')?;
    let service = before(text, number, b' ')?;
    let time_window = before(text, window, b' ')?;
    let lateness_penalty = optional_float_before(text, b'\n')?;
    let customer = Customer {
        service_duration: service as f64,
        time_window,
        lateness_penalty,
    };
    Ok(Place { demand, customer })
}
