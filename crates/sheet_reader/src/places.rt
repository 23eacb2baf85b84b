// The section of the places.
ghost use Rattle.std.specs.Prelude.{◌+◌, ◌≤◌, IfOk};
ghost use Rattle.sheet_cells.specs.sheet_text.Text.{repeat};
ghost use Rattle.sheet_cells.specs.sheet_text.Told.{Reads, told_as, seen};
ghost use Rattle.sheet_cells.specs.sheet_format.Form.{place as Form·place, places as Form·places};
ghost use Rattle.sheet_reader.specs.Cells.{of_columns, columns as Cells·columns, first_cells, add_place, Room, Keeps};

use sheet_cells::{
    Refusal, Text, due_cell, flags_cell, heading, penalty_cell, place_line, ready_cell,
};

// The slices that are lent for the places: a cell of each holds what it has of a place.
#[derive(Drop)]
pub struct Columns<'a> {
    pub demand: &'a mut [i32],
    pub service: &'a mut [f64],
    pub ready: &'a mut [f64],
    pub due: &'a mut [f64],
    pub penalty: &'a mut [f64],
    pub flags: &'a mut [u8],
}

// The line of place i, into cell i of each slice.
fn place_row(columns: &mut Columns, i: usize, text: &mut Text<'_>) -> Result<(), Refusal>
    requires { Room (i + 1) (of_columns columns.old) }
    ensures read { Reads (seen (add_place (first_cells i (of_columns columns.old))) Form·place) text.old
        (told_as (λ done. first_cells (i + 1) (of_columns columns.new)) result) text.new }
    ensures kept { Keeps columns.old columns.new }
{
    let place = place_line(text)?;
    let c = place.customer;
    let w = c.time_window;
    let p = c.lateness_penalty;
    columns.demand[i] = place.demand;
    columns.service[i] = c.service_duration;
    columns.ready[i] = ready_cell(w);
    columns.due[i] = due_cell(w);
    columns.penalty[i] = penalty_cell(p);
    columns.flags[i] = flags_cell(w, p);
    Ok(())
}

// n lines of places, into the first n cells of each slice.
fn place_rows(columns: &mut Columns, text: &mut Text<'_>, n: usize) -> Result<(), Refusal>
    requires { Room n (of_columns columns.old) }
    ensures read { Reads (seen Cells·columns (repeat n (λ left. Form·place))) text.old
        (told_as (λ done. first_cells n (of_columns columns.new)) result) text.new }
    ensures kept { Keeps columns.old columns.new }
{
    for i in 0..n {
        place_row(columns, i, text)?;
    }
    Ok(())
}

// The section of the places.
pub fn places(columns: &mut Columns, text: &mut Text<'_>) -> Result<usize, Refusal>
    requires { Room 64 (of_columns columns.old) }
    ensures read { Reads (seen Cells·columns Form·places) text.old
        (told_as (λ n. first_cells n (of_columns columns.new)) result) text.new }
    ensures at_most { IfOk result (λ n. n ≤ 64) }
    ensures kept { Keeps columns.old columns.new }
{
    let n = heading(text, b"places", 1, 64, Refusal::SheetSizes)?;
    place_rows(columns, text, n)?;
    Ok(n)
}
