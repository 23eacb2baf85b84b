// What a route is worth, or that it does not pass (evaluation/mod.rs, `route_eval` and `effective_cost`).
#![tactic(auto)]

ghost use Rattle.std.specs.Prelude.{◌≡◌, ◌<◌};
ghost use Rattle.route_drive.specs.models.Problem.{Stops};
ghost use Rattle.route_drive.specs.evaluation.Eval.{route_eval, effective_cost};

use route_drive::{
    RouteEval, Walk, break_schedule_schedule as schedule, drive_all, home, infinity, limited,
};

// Of the crates below, passed on to those above.
pub use route_drive::{
    Customers, Demand, DistanceMatrix, Fleet, Instance, Network, Problem, RouteLimits, TimeWindow,
    Vehicle, has_soft_windows, is_finite, largest, max, penalty_at, total_less, window_at,
};

// The evaluation of the route depot, stops, depot.
pub fn route_eval(
    route: &[u16],
    depot: usize,
    limits: RouteLimits,
    net: &Network,
) -> Option<RouteEval>
    requires { (depot < net.now.roads.size) × Stops net.now.roads.size route.now }
    ensures { result ≡ route_eval net.now.places net.now.roads depot limits route.now }
{
    let Some(rest) = limits.rest else {
        let walk = drive_all(Walk::new(depot), route, net)?;
        return home(walk, depot, limits, &net.roads);
    };
    let e = schedule(route, depot, rest, net);
    limited(e, limits)
}

// What the searches minimise on one route: its priced distance, infinite where it does not pass.
pub fn effective_cost(route: &[u16], depot: usize, limits: RouteLimits, net: &Network) -> f64
    requires { (depot < net.now.roads.size) × Stops net.now.roads.size route.now }
    ensures { result ≡ effective_cost net.now.places net.now.roads depot limits route.now }
{
    route_eval(route, depot, limits, net).map_or(infinity(), |e| e.priced_distance())
}
