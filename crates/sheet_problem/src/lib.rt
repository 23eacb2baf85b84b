// Reads the first five sections of a sheet, the problem, into lent slices.
#![tactic(auto)]

ghost use Rattle.std.specs.Prelude.{◌≤◌, length, IfOk};
ghost use Rattle.sheet_vehicle.specs.sheet_text.Told.{Reads, told_as};
ghost use Rattle.sheet_vehicle.specs.sheet_format.Form.{whole_problem};
ghost use Rattle.sheet_roads.specs.sheet_reader.Cells.{of_columns, Room, Keeps};
ghost use Rattle.sheet_problem.specs.Told.{problem_in};

use sheet_rest::{rest, with_rest};
use sheet_roads::{roads, sheet_reader_places as places};
use sheet_vehicle::{Vehicle, vehicle};

// Of the crates below, passed on to those above.
pub use sheet_roads::Columns;
pub use sheet_vehicle::{Refusal, Text};

// How many places there are, how many rows of times, and the vehicle.
#[derive(Clone, Copy)]
pub struct Head {
    pub n: usize,
    pub timed: usize,
    pub vehicle: Vehicle,
}

// The sections of the problem, into the slices.
pub fn problem(
    columns: &mut Columns,
    distances: &mut [f64],
    times: &mut [f64],
    text: &mut Text<'_>,
) -> Result<Head, Refusal>
    requires room { Room 64 (of_columns columns.old) }
    requires in_bounds { 4096 ≤ length distances.old }
    requires in_bounds_2 { 4096 ≤ length times.old }
    ensures read { Reads whole_problem text.old
        (told_as (problem_in (of_columns columns.new) distances.new times.new) result) text.new }
    ensures problem_within { IfOk result (λ h. (h.n ≤ 64) × (h.timed ≤ h.n)) }
    ensures kept { Keeps columns.old columns.new }
{
    let van = vehicle(text)?;
    let n = places(columns, text)?;
    let timed = roads(distances, times, text, n)?;
    let pause = rest(text)?;
    let vehicle = with_rest(van, pause);
    Ok(Head { n, timed, vehicle })
}
