// Reads the sections of the distances and of the times into lent slices.
#![tactic(auto)]

ghost use Rattle.std.specs.Prelude.{◌*◌, ◌≤◌, length, take, IfOk};
ghost use Rattle.sheet_squares.specs.sheet_text.Told.{Reads, told_as, seen};
ghost use Rattle.sheet_squares.specs.sheet_format.Form.{distances as Form·distances, times as Form·times, roads as Form·roads, row_by_row};
ghost use Rattle.sheet_squares.specs.models.Problem.{matrix};

use sheet_squares::{Refusal, Text, heading, square};

// Of the crates below, passed on to those above.
pub use sheet_squares::{Columns, sheet_reader_places};

// The section of the distances, as many rows as there are places.
pub fn distances(cells: &mut [f64], text: &mut Text<'_>, n: usize) -> Result<(), Refusal>
    requires { n * n ≤ length cells.old }
    ensures { Reads (seen row_by_row (Form·distances n)) text.old (told_as (λ done. take (n * n) cells.new) result) text.new }
{
    heading(text, b"distances", n, n, Refusal::SheetForm)?;
    square(cells, text, n)
}

// The section of the times: no rows, or as many as there are places.
pub fn times(cells: &mut [f64], text: &mut Text<'_>, n: usize) -> Result<usize, Refusal>
    requires { n * n ≤ length cells.old }
    ensures read { Reads (seen row_by_row (Form·times n)) text.old (told_as (λ m. take (m * m) cells.new) result) text.new }
    ensures at_most { IfOk result (λ m. m ≤ n) }
{
    let m = heading(text, b"times", 0, n, Refusal::SheetForm)?;
    if m == 0 {
        return Ok(0);
    }
    if m != n {
        return Err(Refusal::SheetForm);
    }
    square(cells, text, n)?;
    Ok(n)
}

// The distances and the times: how many rows of times there are.
pub fn roads(
    distance_cells: &mut [f64],
    time_cells: &mut [f64],
    text: &mut Text<'_>,
    n: usize,
) -> Result<usize, Refusal>
    requires n_in_bounds { n * n ≤ length distance_cells.old }
    requires n_in_bounds_2 { n * n ≤ length time_cells.old }
    ensures read { Reads (Form·roads n) text.old (told_as (λ m. matrix n (take (n * n) distance_cells.new) (take (m * m) time_cells.new)) result)
        text.new }
    ensures at_most { IfOk result (λ m. m ≤ n) }
{
    distances(distance_cells, text, n)?;
    times(time_cells, text, n)
}
