// What a stop put in at a position adds to the distance of a route (local_search/route_minimization.rs, `Pool::insertion_cost`), and the stops on either
// side of that position. No travel time is read.
#![tactic(auto)]

ghost use Rattle.std.specs.Prelude.{◌≡◌, [], ◌*◌, ◌<◌, ◌≤◌, length};
ghost use Rattle.local_search.specs.models.Problem.{Stops};
ghost use Rattle.local_search.specs.route_cost.Route.{prev_stop, next_stop, insertion_cost};

use local_search::get;

// Of the crates below, passed on to those above.
pub use local_search::feasible::{checked, constrained, feasible, trial_ok};
pub use local_search::rounds::{Counts, Next as LocalSearchNext, Reduction};
pub use local_search::{
    Customer, Demand, DistanceMatrix, Fleet, Insertion, Instance, Network, Pick, TimeWindow,
    Vehicle, abs, copy_cells, copy_part, customer_at, cut, has_room, infinity, insert_at, max, min,
    pick_after, rounds, route_cost_gain_floor, route_cost_route_distance, routes, travel_time,
    within_capacity,
};

// The stop before position pos of a route, the depot before the first.
pub fn prev_stop(depot: usize, route: &[u16], pos: usize) -> usize
    requires { pos ≤ length route.now }
    ensures { result ≡ prev_stop depot route.now pos }
{
    route[..pos].last().map_or(depot, |c| *c as usize)
}

// The stop at position pos of a route, the depot after the last.
pub fn next_stop(depot: usize, route: &[u16], pos: usize) -> usize
    ensures { result ≡ next_stop depot route.now pos }
{
    route.get(pos).map_or(depot, |c| *c as usize)
}

// What c at position pos of a route adds to its distance.
pub fn insertion_cost(
    route: &[u16],
    pos: usize,
    c: usize,
    depot: usize,
    roads: &DistanceMatrix,
) -> f64
    requires n_bound { (roads.now.size ≤ 256) × (length roads.now.distances ≡ roads.now.size * roads.now.size) }
    requires depot_lt_n { (depot < roads.now.size) × (c < roads.now.size) × (pos ≤ length route.now) × Stops roads.now.size route.now }
    ensures { result ≡ insertion_cost roads.now depot route.now pos c }
{
    let prev = prev_stop(depot, route, pos);
    let next = next_stop(depot, route, pos);
    get(roads, prev, c) + get(roads, c, next) - get(roads, prev, next)
}
