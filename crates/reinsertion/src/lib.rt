// The place for a stop of a route that is to be eliminated: the cheapest position in the other routes that passes the check (the body of
// `for c in moving` in local_search/route_elimination.rs). One pass over the routes and their positions with the best so far.
#![tactic(auto)]

ghost use Rattle.std.specs.Prelude.{◌≡◌, suc, ◌<◌, ◌≤◌, length};
ghost use Rattle.reinsertion_candidates.specs.laws.Loops.{loop};
ghost use Rattle.reinsertion_candidates.specs.models.Problem.{Stops};
ghost use Rattle.reinsertion_candidates.specs.plan.Given.{routes_left};
ghost use Rattle.reinsertion_candidates.specs.reinsertion_worth.Worth.{current};
ghost use Rattle.reinsertion_candidates.specs.Candidates.{candidates, by_cost, first_passing};
ghost use Rattle.reinsertion_candidates.specs.Place.{look_at, look_through, look_over};
ghost use Rattle.reinsertion_candidates.specs.Asked.{Asked, Looked, Room};
ghost use Rattle.reinsertion_candidates.specs.evaluation.Given.{of_instance, of_fleet};

use reinsertion_candidates::routes::EachRoute;
use reinsertion_candidates::{
    Fleet, Insertion, current, has_room, insertion_worth, leads, settles,
};

// Of the crates below, passed on to those above.
pub use reinsertion_candidates::{
    Counts, Demand, Instance, LocalSearchNext, Move, Pick, Problem, Reduction, Vehicle, is_finite,
    pick_after, route_cost_gain_floor, routes, worth,
};

// One position of route k, which has room for the stop: the better of what it gives and the best so far.
fn look_at(
    route: &[u16],
    pos: usize,
    k: usize,
    before: Option<f64>,
    best: Option<Insertion>,
    stop: Move,
    fleet: &Fleet,
) -> Option<Insertion>
    requires { Looked (of_fleet fleet.now) stop route.now × (pos ≤ length route.now) × (before ≡ current (of_fleet fleet.now) route.now) }
    ensures { result ≡ look_at (of_fleet fleet.now) stop.c stop.added stop.saved k route.now pos best }
{
    let cost = insertion_worth(route, pos, stop.c, before, fleet);
    if leads(cost, fleet.soft, best) && settles(route, pos, cost, stop, fleet) {
        Some(Insertion {
            cost,
            route: k,
            pos,
        })
    } else {
        best
    }
}

// Every position of route k, which has room for the stop, its end too.
fn look_along(
    route: &[u16],
    k: usize,
    before: Option<f64>,
    best: Option<Insertion>,
    stop: Move,
    fleet: &Fleet,
) -> Option<Insertion>
    requires { Looked (of_fleet fleet.now) stop route.now × (before ≡ current (of_fleet fleet.now) route.now) }
    ensures { result ≡ loop (suc (length route.now)) (look_at (of_fleet fleet.now) stop.c stop.added stop.saved k route.now) best }
{
    let mut found = best;
    for pos in 0..=route.len() {
        found = look_at(route, pos, k, before, found, stop, fleet);
    }
    found
}

// Route k: the load test once, its worth once, then the positions.
fn look_through(
    route: &[u16],
    k: usize,
    best: Option<Insertion>,
    stop: Move,
    given: &Instance,
) -> Option<Insertion>
    requires { Asked (of_instance given.now) stop × Stops given.now.fleet.net.roads.size route.now × (length route.now < 256) }
    ensures { result ≡ look_through (of_instance given.now) stop.c stop.added stop.saved k route.now best }
{
    let room = has_room(route, stop.c, &given.demand, given.fleet.vehicle);
    if room {
        let before = current(route, &given.fleet);
        return look_along(route, k, before, best, stop, &given.fleet);
    }
    best
}

// The first least of the candidates that end the search, over the routes of a plan and then their positions.
fn look_over(routes: EachRoute, stop: Move, given: &Instance) -> Option<Insertion>
    requires asked { Asked (of_instance given.now) stop }
    requires room { Room given.now.fleet.net.roads.size routes.lengths.now routes.stops.now }
    ensures { result ≡ look_over (of_instance given.now) stop.c stop.added stop.saved (routes_left routes.entry) }
{
    let mut best = None;
    for (k, route) in routes.enumerate() {
        best = look_through(route, k, best, stop, given);
    }
    best
}

// The first candidate by cost that passes the check, where all before it and itself cost less than what is left to save.
pub fn place(routes: EachRoute, stop: Move, given: &Instance) -> Option<Insertion>
    requires asked { Asked (of_instance given.now) stop }
    requires room { Room given.now.fleet.net.roads.size routes.lengths.now routes.stops.now }
    ensures { result ≡ first_passing (of_instance given.now) (routes_left routes.entry) stop.c stop.added stop.saved
        (by_cost (candidates (of_instance given.now) stop.c (routes_left routes.entry))) }
{
    let found = look_over(routes, stop, given)?;
    if stop.added + found.cost >= stop.saved {
        None
    } else {
        Some(found)
    }
}
