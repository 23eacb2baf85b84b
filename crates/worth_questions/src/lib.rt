// The questions about the worth of one route, its evaluation and its cost: each is refused by the table, or answers.
#![tactic(auto)]

ghost use Rattle.std.specs.Prelude.{◌≡◌};
ghost use Rattle.planner_questions.specs.models.Lent.{of_problem};
ghost use Rattle.planner_questions.specs.planner.Calls.{public_route_eval, public_effective_cost};
ghost use Rattle.planner_questions.specs.planner.Told.{told};

use planner_questions::{Refusal, RouteEval, RouteLimits, route_refusal};

// Of the crates below, passed on to those above.
pub use planner_questions::{
    Customers, DistanceMatrix, Problem, Vehicle, VehicleBreak,
    route_distance as planner_questions_route_distance,
    route_feasible as planner_questions_route_feasible, schedule as planner_questions_schedule,
};

// The evaluation of a route.
pub fn route_eval(route: &[u16], problem: &Problem) -> Result<Option<RouteEval>, Refusal>
    ensures { told result ≡ public_route_eval (of_problem problem.now) route.now }
{
    route_refusal(route, problem)?; // a refused one is not evaluated
    let worth = planner_questions::route_worth_route_eval(
        route,
        problem.vehicle.depot_id,
        RouteLimits::of(problem.vehicle),
        &problem.network(),
    );
    Ok(worth)
}

// What a route costs with its lateness.
pub fn effective_cost(route: &[u16], problem: &Problem) -> Result<f64, Refusal>
    ensures { told result ≡ public_effective_cost (of_problem problem.now) route.now }
{
    route_refusal(route, problem)?; // a refused one is not weighed
    let cost = planner_questions::route_worth_effective_cost(
        route,
        problem.vehicle.depot_id,
        RouteLimits::of(problem.vehicle),
        &problem.network(),
    );
    Ok(cost)
}
