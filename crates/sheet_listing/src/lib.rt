// A text read into slices that are lent for it, and the listing of the plan that is made of them.
#![tactic(auto)]

ghost use Rattle.std.specs.Prelude.{◌≡◌, ◌≤◌, length};
ghost use Rattle.sheet_parts.specs.sheet_reader.Cells.{of_columns, Room as ColumnRoom, Keeps};
ghost use Rattle.sheet_parts.specs.listing.Written.{Written};
ghost use Rattle.sheet_parts.specs.sheet_answers.Printed.{printed};

use sheet_parts::{list_parts, put_refused, sheet_whole_sheet as sheet};

// Of the crates below, passed on to those above.
pub use sheet_parts::Columns;

// Reads the text into the slices, and plans what they hold.
pub fn list_read(
    out: &mut [u8],
    lengths: &mut [u16],
    stops: &mut [u16],
    work: &mut [u16],
    cells: &mut [f64],
    tape: &mut [u64],
    columns: &mut Columns,
    distances: &mut [f64],
    times: &mut [f64],
    text: &[u8],
) -> usize
    requires in_bounds { (6000 ≤ length out.old) × (length work.old ≡ 8192) × (length cells.old ≡ 2048) }
    requires in_bounds_2 { (64 ≤ length lengths.old) × (64 ≤ length stops.old) × (1024 ≤ length tape.old) }
    requires column_room { ColumnRoom 64 (of_columns columns.old) }
    requires in_bounds_3 { (4096 ≤ length distances.old) × (4096 ≤ length times.old) }
    ensures written { Written out.old 0 (printed text.now) out.new result }
    ensures kept { Keeps columns.old columns.new }
{
    match sheet(lengths, stops, tape, columns, distances, times, text) {
        Err(refusal) => put_refused(out, refusal),
        Ok((read, _)) => list_parts(
            out, lengths, stops, work, cells, tape, columns, distances, times, read,
        ),
    }
}
