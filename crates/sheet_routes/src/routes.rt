// The section of the routes.
ghost use Rattle.std.specs.Prelude.{◌≤◌, length, take, IfOk};
ghost use Rattle.sheet_reader.specs.sheet_text.Told.{Reads, told_as, seen};
ghost use Rattle.sheet_reader.specs.sheet_format.Form.{route_line, route_lines, routes as Form·routes, slices_of};
ghost use Rattle.sheet_routes.specs.Routes.{route_cells, plan_in};

use sheet_reader::rows::number_row;
use sheet_reader::{Refusal, Text, byte, ending, heading, sheet_text_number as number, stop_cell};

// How many routes there are, and how many stops in all.
#[derive(Clone, Copy)]
pub struct PlanSize {
    pub given: usize,
    pub used: usize,
}

// A route's line: its stops into the first cells. Row 12 is judged as soon as its length is read.
fn route_row(stops: &mut [u16], text: &mut Text<'_>) -> Result<usize, Refusal>
    ensures { Reads (seen route_cells (route_line (length stops.old))) text.old (told_as (λ k. (k, take k stops.new)) result) text.new }
{
    let k = number(text)? as usize;
    if k > stops.len() {
        return Err(Refusal::SheetSizes);
    }
    byte(text, ending(k))?;
    number_row(&mut stops[..k], text, stop_cell)?;
    Ok(k)
}

// n route lines: lengths into the first cells of their slice, the stops one behind the other.
fn route_rows(
    lengths: &mut [u16],
    stops: &mut [u16],
    text: &mut Text<'_>,
    n: usize,
) -> Result<PlanSize, Refusal>
    requires n_in_bounds { n ≤ length lengths.old }
    requires in_bounds { 64 ≤ length stops.old }
    ensures read { Reads (seen slices_of (route_lines n 64)) text.old (told_as (plan_in lengths.new stops.new) result) text.new }
    ensures plan_within { IfOk result (λ p. (p.given ≤ n) × (p.used ≤ 64)) }
{
    let mut used: usize = 0;
    for r in 0..n {
        let k = route_row(&mut stops[used..64], text)?;
        lengths[r] = k as u16;
        used += k;
    }
    Ok(PlanSize { given: n, used })
}

// The section of the routes.
pub fn routes(
    lengths: &mut [u16],
    stops: &mut [u16],
    text: &mut Text<'_>,
) -> Result<PlanSize, Refusal>
    requires in_bounds { 64 ≤ length lengths.old }
    requires in_bounds_2 { 64 ≤ length stops.old }
    ensures read { Reads (seen slices_of Form·routes) text.old (told_as (plan_in lengths.new stops.new) result) text.new }
    ensures plan_within { IfOk result (λ p. (p.given ≤ 64) × (p.used ≤ 64)) }
{
    let n = heading(text, b"routes", 0, 64, Refusal::SheetSizes)?;
    route_rows(lengths, stops, text, n)
}
