// The times along a route (local_search/route_minimization.rs, `Pool::departures` and `Pool::latest_arrivals`): forward, when each stop is left; backward,
// how late each may be reached.
#![tactic(auto)]

ghost use Rattle.std.specs.Prelude.{◌≡◌, ◌≤◌, ◌<◌, length, take, drop};
ghost use Rattle.latest_times.specs.models.Problem.{Stops};
ghost use Rattle.latest_times.specs.quick_test.Quick.{departures, latest_arrivals};
ghost use Rattle.latest_times.specs.quick_test.Parts.{told};

use latest_times::{infinity, latest_arrival, leave};

// Of the crates below, passed on to those above.
pub use latest_times::{
    Counts, Demand, DistanceMatrix, Fleet, Insertion, Instance, LocalSearchNext, Network, Pick,
    Reduction, Vehicle, checked, constrained, copy_cells, copy_part, feasible, has_room,
    insertion_cost, may_fit, pick_after, rounds, routes, trial_ok, within_capacity,
};

// The time each stop of a route is left goes to the first cells; false where one is reached after its window closes.
pub fn departures(out: &mut [f64], route: &[u16], depot: usize, net: &Network) -> bool
    requires { (depot < net.now.roads.size) × Stops net.now.roads.size route.now × (length route.now ≤ length out.old) }
    ensures { departures net.now.places net.now.roads depot route.now ≡ told result (take (length route.now) out.new) }
{
    let mut time = 0.0;
    let mut prev = depot;
    for (i, stop) in route.iter().enumerate() {
        let c = *stop as usize;
        let Some(left) = leave(time, prev, c, net) else {
            return false;
        };
        out[i] = left;
        time = left;
        prev = c;
    }
    true
}

// The latest arrival at each stop of a route that lets it and every stop after it start in time goes to the first cells, from
// the last to the first. The depot has no window: the last stop is bound by its own alone.
pub fn latest_arrivals(out: &mut [f64], route: &[u16], depot: usize, net: &Network)
    requires { (depot < net.now.roads.size) × Stops net.now.roads.size route.now × (length route.now ≤ length out.old) }
    ensures { (take (length route.now) out.new ≡ latest_arrivals net.now.places net.now.roads depot route.now)
        × (drop (length route.now) out.new ≡ drop (length route.now) out.old) }
{
    let mut by = infinity();
    let mut next = depot;
    for (i, stop) in route.iter().enumerate().rev() {
        let c = *stop as usize;
        by = latest_arrival(by, c, next, net);
        out[i] = by;
        next = c;
    }
}
