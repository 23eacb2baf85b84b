// The cheapest place for a stop in one route (local_search/route_minimization.rs, a turn of the loop over routes of `Pool::cheapest`): every position,
// where the route has room and keeps its windows.
#![tactic(auto)]

ghost use Rattle.std.specs.Prelude.{◌≡◌, [], suc, ◌<◌, length};
ghost use Rattle.insertion.specs.laws.Loops.{loop};
ghost use Rattle.insertion.specs.models.Problem.{Stops};
ghost use Rattle.insertion.specs.route_times.Prepared.{held};
ghost use Rattle.insertion.specs.Cheapest.{try_route};
ghost use Rattle.insertion.specs.Pass.{pass_position};
ghost use Rattle.insertion.specs.evaluation.Given.{of_instance, of_fleet};

use insertion::{Fleet, has_room, try_position};

// Of the crates below, passed on to those above.
pub use insertion::{Counts, Demand, Insertion, Instance, Times, Vehicle, routes};

// Every position of route k, which has room for c, its end too.
fn try_positions(
    route: &[u16],
    times: &Times,
    c: usize,
    k: usize,
    best: Option<Insertion>,
    fleet: &Fleet,
) -> Option<Insertion>
    requires there { c < fleet.now.net.roads.size }
    requires stops { Stops fleet.now.net.roads.size route.now }
    ensures { result ≡ loop (suc (length route.now))
        (pass_position (of_fleet fleet.now) c k route.now (held (length route.now) times.now)) best }
{
    let mut found = best;
    for pos in 0..=route.len() {
        found = try_position(
            route,
            times.departures,
            times.latest,
            pos,
            c,
            k,
            found,
            fleet,
        );
    }
    found
}

// Route k: the load test once, the departures and latest arrivals once, then the positions.
pub fn try_route(
    times: &mut Times,
    route: &[u16],
    c: usize,
    k: usize,
    best: Option<Insertion>,
    given: &Instance,
) -> Option<Insertion>
    requires there { c < given.now.fleet.net.roads.size }
    requires stops { Stops given.now.fleet.net.roads.size route.now }
    ensures { result ≡ try_route (of_instance given.now) c k route.now best }
{
    let room = has_room(route, c, &given.demand, given.fleet.vehicle);
    if !room {
        return best;
    }
    let in_time = times.prepare(route, &given.fleet);
    if in_time {
        try_positions(route, times, c, k, best, &given.fleet)
    } else {
        best
    }
}
