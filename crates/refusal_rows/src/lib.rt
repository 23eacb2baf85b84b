// The rows of the refusal table (entry, specs/Table.antt) in groups, by what they read. Each group is refused with its first row that applies.
#![tactic(auto)]

ghost use Rattle.std.specs.Prelude.{◌≡◌, true};
ghost use Rattle.place_checks.specs.models.Lent.{of_problem};
ghost use Rattle.place_checks.specs.models.Valid.{sizes_pass, values_pass};
ghost use Rattle.stop_checks.specs.plan.Plan.{Slices};
ghost use Rattle.stop_checks.specs.entry.Given.{row_of};
ghost use Rattle.stop_checks.specs.entry.Rows.{problem_rows, route_rows, plan_rows, work_rows, minimise_rows};

use place_checks::{amounts_pass, places_pass, sizes_pass, vehicle_passes, windows_pass};
use stop_checks::{bad_lengths, stops_pass};

// Of the crates below, passed on to those above.
pub use place_checks::{
    Customers, DistanceMatrix, Problem, RouteLimits, TimeWindow, Vehicle, VehicleBreak,
    break_passes,
};
pub use stop_checks::{
    Refusal, RouteEval, Work, break_schedule_schedule, evaluation_check, route_cost_gain_floor,
    route_cost_route_distance,
};

// Whether row 2 lets the problem pass, where row 1 does.
fn values_pass(problem: &Problem) -> bool
    requires { sizes_pass (of_problem problem.now) ≡ true }
    ensures { result ≡ values_pass (of_problem problem.now) }
{
    let (places, roads) = (problem.places, problem.roads);
    vehicle_passes(problem.vehicle)
        && amounts_pass(places.service)
        && amounts_pass(roads.distances)
        && amounts_pass(roads.times)
        && places_pass(problem.demand, places)
}

// Rows 1 to 4. `beside` says whether the floats that a call is given beside the problem pass row 2.
pub fn problem_rows(beside: bool, problem: &Problem) -> Result<(), Refusal>
    ensures { row_of result ≡ problem_rows beside (of_problem problem.now) }
{
    if !sizes_pass(problem) {
        return Err(Refusal::Sizes);
    }
    if !(values_pass(problem) && beside) {
        return Err(Refusal::Values);
    }
    if !windows_pass(problem.places) {
        return Err(Refusal::Windows);
    }
    if problem.vehicle.depot_id >= problem.roads.size() {
        return Err(Refusal::Depot);
    }
    Ok(())
}

// Row 6, of a route.
pub fn route_rows(route: &[u16], problem: &Problem) -> Result<(), Refusal>
    ensures { row_of result ≡ route_rows (of_problem problem.now) route.now }
{
    if !stops_pass(route, problem) {
        return Err(Refusal::Stops);
    }
    Ok(())
}

// Rows 5 and 6, of a plan.
pub fn plan_rows(lengths: &[u16], stops: &[u16], problem: &Problem) -> Result<(), Refusal>
    ensures { row_of result ≡ plan_rows (of_problem problem.now) (record { lengths = lengths.entry.now; stops = stops.now }) }
{
    if bad_lengths(lengths, stops) {
        return Err(Refusal::Lengths);
    }
    route_rows(stops, problem)
}

// Row 9.
pub fn work_rows(work: Work) -> Result<(), Refusal>
    ensures { row_of result ≡ work_rows work }
{
    if work.u16_cells < 8192 || work.f64_cells < 2048 {
        return Err(Refusal::WorkCells);
    }
    Ok(())
}

// Rows 7 to 9.
pub fn minimise_rows(tape: &[u64], limit: u64, work: Work) -> Result<(), Refusal>
    ensures { row_of result ≡ minimise_rows tape.now limit work }
{
    if tape.is_empty() {
        return Err(Refusal::Tape);
    }
    if limit > 65535 {
        return Err(Refusal::StepLimit);
    }
    work_rows(work)
}
