// The sheet as a whole.
ghost use Rattle.std.specs.Prelude.{◌≡◌, ◌≤◌, length};
ghost use Rattle.sheet_draws.specs.sheet_format.Form.{sheet as Form·sheet};
ghost use Rattle.sheet_draws.specs.sheet_reader.Cells.{of_columns, Room, Keeps};
ghost use Rattle.sheet_whole.specs.Whole.{told_sheet, SheetWithin};

use crate::parts::Sheet;
use crate::request::request;
use sheet_problem::{Columns, Refusal, Text, problem};

// How many bytes a sheet may have.
const MOST_BYTES: usize = 60000;

// A sheet of at most 60,000 bytes, read front to back to its first fault, into the slices.
pub fn sheet(
    lengths: &mut [u16],
    stops: &mut [u16],
    tape: &mut [u64],
    columns: &mut Columns,
    distances: &mut [f64],
    times: &mut [f64],
    s: &[u8],
) -> Result<(Sheet, usize), Refusal>
    requires in_bounds { (64 ≤ length lengths.old) × (64 ≤ length stops.old) × (1024 ≤ length tape.old) }
    requires room { Room 64 (of_columns columns.old) }
    requires in_bounds_2 { (4096 ≤ length distances.old) × (4096 ≤ length times.old) }
    ensures result_after { told_sheet lengths.new stops.new tape.new (of_columns columns.new)
        distances.new times.new result ≡ Form·sheet s.now 0 }
    ensures sheet_within { SheetWithin result }
    ensures kept { Keeps columns.old columns.new }
{
    if s.len() > MOST_BYTES {
        return Err(Refusal::SheetLength);
    }
    let mut text = Text { bytes: s, at: 0 };
    let head = problem(columns, distances, times, &mut text)?;
    let request = request(lengths, stops, tape, &mut text)?;
    Ok((Sheet { head, request }, text.at))
}
