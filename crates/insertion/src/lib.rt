// One position for a stop, on the way to the cheapest one (local_search/route_minimization.rs, `Pool::cheapest`): what it costs, and whether the stop
// may go in there. The definitions of the whole search and their laws are in specs/.
#![tactic(auto)]

ghost use Rattle.std.specs.Prelude.{◌≡◌, [], ◌<◌, ◌≤◌, length};
ghost use Rattle.route_times.specs.models.Problem.{Stops};
ghost use Rattle.insertion.specs.Cheapest.{cheaper};
ghost use Rattle.insertion.specs.Pass.{first_times, may_pass, pass_position};
ghost use Rattle.route_times.specs.evaluation.Given.{of_fleet};

use route_times::{may_fit, trial_ok};

// Of the crates below, passed on to those above.
pub use route_times::{
    Counts, Demand, DistanceMatrix, Fleet, Insertion, Instance, LocalSearchNext, Pick, Reduction,
    Times, Vehicle, checked, constrained, copy_cells, copy_part, feasible, has_room,
    insertion_cost, pick_after, rounds, routes, within_capacity,
};

// Whether c may go in at pos of a route that has room for it: the quick test and then the check of the trial route, where they are
// needed. The times are those that `prepare` keeps: the first cells of the two are read, one for each stop.
#[tactic(auto, unfolding(crate::specs::Pass::may_pass))]
pub fn may_pass(
    route: &[u16],
    departures: &[f64],
    latest: &[f64],
    pos: usize,
    c: usize,
    fleet: &Fleet,
) -> bool
    requires there { c < fleet.now.net.roads.size }
    requires within { pos ≤ length route.now }
    requires stops { Stops fleet.now.net.roads.size route.now }
    requires departures_room { length route.now ≤ length departures.now }
    requires latest_room { length route.now ≤ length latest.now }
    ensures { result ≡ may_pass (of_fleet fleet.now) route.now (first_times (length route.now) departures.now latest.now) pos c }
{
    if !fleet.needed {
        return true;
    }
    let fits = may_fit(
        route,
        departures,
        latest,
        pos,
        c,
        fleet.vehicle.depot_id,
        &fleet.net,
    );
    fits && trial_ok(route, pos, c, fleet)
}

// Whether a cost is less than the best so far. An equal one is not, so the first found among equals stays.
fn cheaper(cost: f64, best: Option<Insertion>) -> bool
    ensures { result ≡ cheaper cost best }
{
    best.is_none_or(|found| !(cost >= found.cost))
}

// One position of route k, which has room for c: the better of what it gives and the best so far.
#[tactic(auto, unfolding(crate::specs::Pass::pass_position))]
pub fn try_position(
    route: &[u16],
    departures: &[f64],
    latest: &[f64],
    pos: usize,
    c: usize,
    k: usize,
    best: Option<Insertion>,
    fleet: &Fleet,
) -> Option<Insertion>
    requires there { c < fleet.now.net.roads.size }
    requires within { pos ≤ length route.now }
    requires stops { Stops fleet.now.net.roads.size route.now }
    requires departures_room { length route.now ≤ length departures.now }
    requires latest_room { length route.now ≤ length latest.now }
    ensures { result ≡ pass_position (of_fleet fleet.now) c k route.now (first_times (length route.now) departures.now latest.now) pos best }
{
    let cost = insertion_cost(route, pos, c, fleet.vehicle.depot_id, &fleet.net.roads);
    if cheaper(cost, best) && may_pass(route, departures, latest, pos, c, fleet) {
        Some(Insertion {
            cost,
            route: k,
            pos,
        })
    } else {
        best
    }
}
