// The questions about one route: each is refused by the table, or answers. Those about its worth are in worth_questions, those about the problem in
// problem_questions.
#![tactic(auto)]

ghost use Rattle.std.specs.Prelude.{◌≡◌};
ghost use Rattle.refusals.specs.models.Lent.{of_problem};
ghost use Rattle.planner.specs.Calls.{public_route_feasible, public_schedule, public_route_distance};
ghost use Rattle.planner.specs.Told.{told};

use refusals::calls::schedule_refusal;
use refusals::evaluation_check as check;

// Of the crates below, passed on to those above.
pub use planner::{Reduction, Refusal, bound, route_worth_effective_cost, route_worth_route_eval};
pub use refusals::calls::{problem_refusal, route_refusal};
pub use refusals::{
    Customers, DistanceMatrix, Problem, RouteEval, RouteLimits, TimeWindow, Vehicle, VehicleBreak,
    route_cost_gain_floor,
};

// Whether a route passes the check.
pub fn route_feasible(route: &[u16], problem: &Problem) -> Result<bool, Refusal>
    ensures { told result ≡ public_route_feasible (of_problem problem.now) route.now }
{
    route_refusal(route, problem)?; // a refused one is not checked
    let passes = check::route_feasible(
        route,
        problem.vehicle.depot_id,
        RouteLimits::of(problem.vehicle),
        &problem.network(),
    );
    Ok(passes)
}

// The distance of a route.
pub fn route_distance(route: &[u16], problem: &Problem) -> Result<f64, Refusal>
    ensures { told result ≡ public_route_distance (of_problem problem.now) route.now }
{
    route_refusal(route, problem)?; // a refused one is not measured
    let distance = refusals::route_cost_route_distance(
        route,
        problem.vehicle.depot_id,
        problem.roads,
    );
    Ok(distance)
}

// The schedule of a route with the break that is given, without limits.
pub fn schedule(
    route: &[u16],
    rest: VehicleBreak,
    problem: &Problem,
) -> Result<Option<RouteEval>, Refusal>
    ensures { told result ≡ public_schedule (of_problem problem.now) rest route.now }
{
    schedule_refusal(route, rest, problem)?; // a refused one is not scheduled
    let timed = refusals::break_schedule_schedule(
        route,
        problem.vehicle.depot_id,
        rest,
        &problem.network(),
    );
    Ok(timed)
}
