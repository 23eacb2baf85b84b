// What a route is worth, and what an insertion costs in worth: the distance, or with a soft window the cost that weighs the
// lateness (local_search/route_elimination.rs, `worth`).
#![tactic(auto)]

ghost use Rattle.std.specs.Prelude.{◌≡◌, [], ◌<◌, ◌≤◌, length};
ghost use Rattle.route_worth.specs.laws.Edits.{insert_at};
ghost use Rattle.route_worth.specs.models.RouteLimits.{limits_of};
ghost use Rattle.route_worth.specs.models.Problem.{Stops};
ghost use Rattle.route_worth.specs.evaluation.Eval.{effective_cost};
ghost use Rattle.reinsertion_worth.specs.Worth.{worth, insertion_worth, current};
ghost use Rattle.route_worth.specs.evaluation.Given.{of_fleet};

use insertion_cost::{
    copy_cells, insert_at, insertion_cost, route_cost_route_distance as route_distance,
};
use route_worth::{RouteLimits, effective_cost};

// Of the crates below, passed on to those above.
pub use insertion_cost::{
    Counts, Insertion, LocalSearchNext, Pick, Reduction, cut, has_room, pick_after,
    route_cost_gain_floor, routes, trial_ok,
};
pub use route_worth::{Demand, Fleet, Instance, Problem, Vehicle, is_finite, total_less};

// What a route is worth.
pub fn worth(route: &[u16], fleet: &Fleet) -> f64
    requires { Stops fleet.now.net.roads.size route.now }
    ensures { result ≡ worth (of_fleet fleet.now) route.now }
{
    if fleet.soft { // the lateness is weighed
        return effective_cost(
            route,
            fleet.vehicle.depot_id,
            RouteLimits::of(fleet.vehicle),
            &fleet.net,
        );
    }
    route_distance(route, fleet.vehicle.depot_id, &fleet.net.roads)
}

// What a route is worth where a window is soft: else no lateness is weighed.
pub fn current(route: &[u16], fleet: &Fleet) -> Option<f64>
    requires { Stops fleet.now.net.roads.size route.now }
    ensures { result ≡ current (of_fleet fleet.now) route.now }
{
    if fleet.soft {
        Some(worth(route, fleet))
    } else {
        None
    }
}

// The route with c put in at pos goes to the first cells. Returns these cells.
fn build_trial<'a>(trial: &'a mut [u16], route: &[u16], pos: usize, c: usize) -> &'a [u16]
    requires { (pos ≤ length route.now) × (length route.now < length trial.old) × (c < 65536) }
    ensures { result.now ≡ insert_at pos c route.now }
{
    let end = route.len();
    copy_cells(&mut trial[..end], route);
    insert_at(&mut trial[..end + 1], pos, c as u16);
    &trial[..end + 1]
}

// What the route with c put in at pos costs, its lateness weighed.
fn trial_cost(route: &[u16], pos: usize, c: usize, fleet: &Fleet) -> f64
    requires { (c < fleet.now.net.roads.size) × (pos ≤ length route.now) × Stops fleet.now.net.roads.size route.now × (length route.now < 256) }
    ensures { result ≡ effective_cost fleet.now.net.places fleet.now.net.roads fleet.now.vehicle.depot_id (limits_of fleet.now.vehicle)
        (insert_at pos c route.now) }
{
    let mut trial = [0u16; 256];
    effective_cost(
        build_trial(&mut trial, route, pos, c),
        fleet.vehicle.depot_id,
        RouteLimits::of(fleet.vehicle),
        &fleet.net,
    )
}

// What c at position pos of a route costs: the change in worth. `before` is what `current` says of the route.
pub fn insertion_worth(
    route: &[u16],
    pos: usize,
    c: usize,
    before: Option<f64>,
    fleet: &Fleet,
) -> f64
    requires place { c < fleet.now.net.roads.size }
    requires position { pos ≤ length route.now }
    requires stops { Stops fleet.now.net.roads.size route.now }
    requires few { length route.now < 256 }
    requires told { before ≡ current (of_fleet fleet.now) route.now }
    ensures { result ≡ insertion_worth (of_fleet fleet.now) route.now pos c }
{
    match before {
        Some(own) => trial_cost(route, pos, c, fleet) - own,
        None => insertion_cost(route, pos, c, fleet.vehicle.depot_id, &fleet.net.roads),
    }
}
