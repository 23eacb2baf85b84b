// What a cell of a slice holds of a place's window and penalty, and of a stop.
#![tactic(auto)]

ghost use Rattle.std.specs.Prelude.{◌≡◌};
ghost use Rattle.sheet_format.specs.Form.{ready_cell as Form·ready-cell, due_cell as Form·due-cell, penalty_cell as Form·penalty-cell, flags_cell as Form·flags-cell};
ghost use Rattle.sheet_format.specs.Form.{stop_cell as Form·stop-cell};

use sheet_format::TimeWindow;

// Of the crates below, passed on to those above.
pub use sheet_format::places::place_line;
pub use sheet_format::{Refusal, Text, before, byte, ending, heading, sheet_text_number};

// READY as its cell holds it, 0 where there is none.
pub fn ready_cell(window: Option<TimeWindow>) -> f64
    ensures { result ≡ Form·ready-cell window }
{
    window.map_or(0.0, |w| w.ready)
}

// DUE as its cell holds it, 0 where there is none.
pub fn due_cell(window: Option<TimeWindow>) -> f64
    ensures { result ≡ Form·due-cell window }
{
    window.map_or(0.0, |w| w.due)
}

// PENALTY as its cell holds it, 0 where there is none.
pub fn penalty_cell(penalty: Option<f64>) -> f64
    ensures { result ≡ Form·penalty-cell penalty }
{
    penalty.unwrap_or(0.0)
}

// The flags: bit 0 for a window, bit 1 for a penalty.
pub fn flags_cell(window: Option<TimeWindow>, penalty: Option<f64>) -> u8
    ensures { result ≡ Form·flags-cell window penalty }
{
    match (window, penalty) {
        (None, None) => 0,
        (Some(_), None) => 1,
        (None, Some(_)) => 2,
        (Some(_), Some(_)) => 3,
    }
}

// A stop as its cell holds it: what does not fit becomes 65,535.
pub fn stop_cell(c: u32) -> u16
    ensures { result ≡ Form·stop-cell c }
{
    u16::try_from(c).unwrap_or(u16::MAX)
}
