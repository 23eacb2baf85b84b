// The distance of a route, the least gain that counts, and an insertion that a search has found. None of them reads travel times.
// What an insertion adds to a route is worked out in `insertion_cost`, the cost of a plan in `plan_cost`.
#![tactic(auto)]

ghost use Rattle.std.specs.Prelude.{◌≡◌, [], ◌*◌, ◌<◌, ◌≤◌, length};
ghost use Rattle.evaluation_laws.specs.models.Problem.{matrix, Stops};
ghost use Rattle.route_cost.specs.Route.{route_distance, gain_floor};

use evaluation_laws::scale;

// Of the crates below, passed on to those above.
pub use evaluation_laws::{
    Customer, Customers, Demand, DistanceMatrix, Fleet, Instance, Network, Problem, RouteEval,
    RouteLimits, TimeWindow, Vehicle, abs, break_schedule_schedule, customer_at, evaluation_check,
    evaluation_route_feasible, get, has_soft_windows, infinity, max, min, route_checks_needed,
    travel_time, trial_feasible,
};
pub use plan::{copy_cells, copy_part, each};

// An insertion that a search has found: what it costs, the route, the position.
#[derive(Clone, Copy)]
pub struct Insertion {
    pub cost: f64,
    pub route: usize,
    pub pos: usize,
}

// The distance of the route depot, stops, depot; 0 where there are no stops.
#[tactic(auto, using(crate::proofs::DistanceLaws::going_laws))]
pub fn route_distance(route: &[u16], depot: usize, roads: &DistanceMatrix) -> f64
    requires n_bound { (roads.now.size ≤ 256) × (length roads.now.distances ≡ roads.now.size * roads.now.size) }
    requires depot_lt_n { (depot < roads.now.size) × Stops roads.now.size route.now }
    ensures { result ≡ route_distance roads.now depot route.now }
{
    let Some((first, rest)) = route.split_first() else {
        return 0.0;
    };
    let mut prev = *first as usize;
    let mut dist = get(roads, depot, prev);
    for c in rest {
        dist = dist + get(roads, prev, *c as usize);
        prev = *c as usize;
    }
    dist + get(roads, prev, depot)
}

// The least gain that counts as one. It reads the distances alone.
pub fn gain_floor(distances: &[f64]) -> f64
    ensures { result ≡ gain_floor (matrix 0 distances.now []) }
{
    1e-12 * scale(distances)
}
