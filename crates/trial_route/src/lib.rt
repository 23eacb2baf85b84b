// The route check on a trial route: a route with one stop put in. No copy is made: the walk goes over the front part, the stop, then the tail.
#![tactic(auto)]

ghost use Rattle.std.specs.Prelude.{◌≡◌, ◌<◌, ◌≤◌, length};
ghost use Rattle.route_checks.specs.laws.Edits.{insert_at};
ghost use Rattle.route_checks.specs.models.Problem.{Stops};
ghost use Rattle.route_checks.specs.break_clock.Schedule.{ride_all, set_out as ride-out};
ghost use Rattle.route_checks.specs.evaluation.Check.{reach_all, set_out, route_feasible};

use route_checks::{Riding, Way, home_allowed, is_feasible, reach, reach_all, ride_all, ride_home};

// Of the crates below, passed on to those above.
pub use route_checks::{
    Customer, Customers, Demand, DistanceMatrix, Fleet, Instance, Label, Network, Problem,
    RouteEval, RouteLimits, TimeWindow, Vehicle, VehicleBreak, Walk, abs, break_schedule_schedule,
    customer_at, evaluation_check, evaluation_route_feasible, get, has_soft_windows, infinity,
    is_finite, largest, limited, max, min, penalty_at, route_checks_needed, scale, serve_at,
    total_less, travel_time, window_at,
};

// The walk of the route check over the route with c put in before position pos.
fn trial_reached(route: &[u16], pos: usize, c: usize, depot: usize, net: &Network) -> Option<Way>
    requires { (depot < net.now.roads.size) × (c < net.now.roads.size) × (pos ≤ length route.now) × Stops net.now.roads.size route.now }
    ensures { result ≡ reach_all net.now.places net.now.roads (insert_at pos c route.now) (set_out depot) }
{
    let (front, tail) = route.split_at(pos);
    let before = reach_all(Way::new(depot), front, net)?;
    let after = reach(before, c, net)?;
    reach_all(after, tail, net)
}

// The walk of the clock over the route with c put in before position pos. The drive to c is a walk over a slice of one stop:
// so `ride` has one caller, the loop of `ride_all`, and is compiled into it.
fn trial_ridden(
    route: &[u16],
    pos: usize,
    c: usize,
    depot: usize,
    rest: VehicleBreak,
    net: &Network,
) -> Option<Riding>
    requires { (depot < net.now.roads.size) × (c < net.now.roads.size) × (pos ≤ length route.now) × Stops net.now.roads.size route.now }
    ensures { result ≡ ride_all net.now.places net.now.roads rest (insert_at pos c route.now) (ride-out depot) }
{
    let (front, tail) = route.split_at(pos);
    let before = ride_all(Riding::new(depot), rest, front, net)?;
    let one = [c as u16];
    let after = ride_all(before, rest, &one, net)?;
    ride_all(after, rest, tail, net)
}

// Whether the route passes once c is put in before position pos.
pub fn trial_feasible(
    route: &[u16],
    pos: usize,
    c: usize,
    depot: usize,
    limits: RouteLimits,
    net: &Network,
) -> bool
    requires { (depot < net.now.roads.size) × (c < net.now.roads.size) × (pos ≤ length route.now) × Stops net.now.roads.size route.now }
    ensures { result ≡ route_feasible net.now.places net.now.roads depot limits (insert_at pos c route.now) }
{
    let Some(rest) = limits.rest else {
        let Some(way) = trial_reached(route, pos, c, depot, net) else {
            return false;
        };
        return home_allowed(way, depot, limits, &net.roads);
    };
    let Some(at) = trial_ridden(route, pos, c, depot, rest, net) else {
        return false;
    };
    let e = ride_home(at, rest, depot, &net.roads);
    is_feasible(limited(e, limits))
}
