// The quick test of the ejection pool (local_search/route_minimization.rs, `may_fit`) at one position: whether a stop may go in there, by when the stop before
// is left and how late the next may be reached (`latest_times`).
#![tactic(auto)]

ghost use Rattle.std.specs.Prelude.{◌≡◌, ◌≤◌, ◌<◌, length, take};
ghost use Rattle.quick_test.specs.models.Problem.{Stops};
ghost use Rattle.quick_test.specs.Quick.{in_time, left_before, may_fit};
ghost use Rattle.quick_test.specs.Parts.{leave, next_in_time};

use quick_test::{abs, max, prev_stop};

// Of the crates below, passed on to those above.
pub use quick_test::{
    Counts, Demand, DistanceMatrix, Fleet, Insertion, Instance, LocalSearchNext, Network, Pick,
    Reduction, TimeWindow, Vehicle, checked, constrained, copy_cells, copy_part, customer_at,
    feasible, has_room, infinity, insertion_cost, leave, min, pick_after, rounds, routes,
    travel_time, trial_ok, within_capacity,
};

// Whether an arrival is by a bound, with room for rounding. A bound of -infinity makes a NaN, and the answer is no.
fn in_time(arrival: f64, bound: f64) -> bool
    ensures { result ≡ in_time arrival bound }
{
    arrival <= bound + 1e-9 * max(abs(bound), 1.0)
}

// When the stop before `pos` is left.
fn left_before(departures: &[f64], pos: usize) -> f64
    requires { pos ≤ length departures.now }
    ensures { result ≡ left_before departures.now pos }
{
    departures[..pos].last().map_or(0.0, |time| *time)
}

// Whether the stop at `pos`, if there is one, is reached by its latest arrival from c, left at `left`.
#[tactic(auto, unfolding(quick_test::specs::Parts::next_in_time))]
fn next_in_time(
    left: f64,
    route: &[u16],
    latest: &[f64],
    pos: usize,
    c: usize,
    net: &Network,
) -> bool
    requires { (c < net.now.roads.size) × Stops net.now.roads.size route.now × (length route.now ≤ length latest.now) }
    ensures { result ≡ next_in_time net.now.roads route.now latest.now pos c left }
{
    let Some(next) = route.get(pos) else {
        return true;
    };
    let arrival = left + travel_time(&net.roads, c, *next as usize);
    in_time(arrival, latest[pos])
}

// Whether c, put in at `pos` of a route that is left at `departures` and allows `latest` arrivals, may keep every window: its own,
// and the next stop is still reached by its latest arrival. The first cells of the two are read, one for each stop.
pub fn may_fit(
    route: &[u16],
    departures: &[f64],
    latest: &[f64],
    pos: usize,
    c: usize,
    depot: usize,
    net: &Network,
) -> bool
    requires { (depot < net.now.roads.size) × (c < net.now.roads.size) × Stops net.now.roads.size route.now × (pos ≤ length route.now)
        × (length route.now ≤ length departures.now) × (length route.now ≤ length latest.now) }
    ensures { result ≡ may_fit net.now.places net.now.roads depot route.now (take (length route.now) departures.now)
        (take (length route.now) latest.now) pos c }
{
    let before = left_before(departures, pos);
    let prev = prev_stop(depot, route, pos);
    let Some(left) = leave(before, prev, c, net) else {
        return false;
    };
    next_in_time(left, route, latest, pos, c, net)
}
