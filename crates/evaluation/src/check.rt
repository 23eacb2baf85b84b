// The route check: whether a route reaches every stop in time and keeps the limits. It is asked of every candidate place,
// so its walk keeps time and distance only, and ends at the first stop that is missed.
ghost use Rattle.std.specs.Prelude.{◌≡◌, ◌<◌};
ghost use Rattle.break_schedule.specs.models.Problem.{Square, Stops};
ghost use Rattle.evaluation.specs.Check.{set_out, departure, reach, reach_all, home_allowed, route_feasible};

use crate::eval::{is_feasible, limited};
use break_schedule::{
    Customer, DistanceMatrix, Network, RouteLimits, customer_at, get, schedule, travel_time,
};

// A route as far as it has been driven: the time its last stop is left, the distance so far, and that stop.
#[derive(Clone, Copy)]
pub struct Way {
    pub time: f64,
    pub distance: f64,
    pub prev: usize,
}

impl Way {
    // At the depot, at time 0.
    pub fn new(depot: usize) -> Way
        ensures { result ≡ set_out depot }
    {
        Way {
            time: 0.0,
            distance: 0.0,
            prev: depot,
        }
    }
}

// When the service ends after `arrival`; none where a window without a penalty has closed.
#[tactic(auto, unfolding(crate::specs::Check::departure))]
pub fn departure(arrival: f64, customer: Customer) -> Option<f64>
    ensures { result ≡ departure arrival customer }
{
    let Some(tw) = customer.time_window else {
        return Some(arrival + customer.service_duration);
    };
    if tw.is_violated(arrival) && customer.lateness_penalty.is_none() {
        return None;
    }
    Some(arrival + tw.waiting_time(arrival) + customer.service_duration)
}

// The drive to the next stop and the service there.
#[tactic(auto, unfolding(crate::specs::Check::reach))]
pub fn reach(way: Way, c: usize, net: &Network) -> Option<Way>
    requires { (way.prev < net.now.roads.size) × (c < net.now.roads.size) }
    ensures { result ≡ reach net.now.places net.now.roads way c }
{
    let distance = way.distance + get(&net.roads, way.prev, c);
    let arrival = way.time + travel_time(&net.roads, way.prev, c);
    let customer = customer_at(c, &net.places);
    let time = departure(arrival, customer)?;
    Some(Way {
        time,
        distance,
        prev: c,
    })
}

// The stops in order, as far as they are reached in time.
#[tactic(auto, using(crate::proofs::CheckLaws::reaching_laws))]
pub fn reach_all(way: Way, stops: &[u16], net: &Network) -> Option<Way>
    requires { (way.prev < net.now.roads.size) × Stops net.now.roads.size stops.now }
    ensures { result ≡ reach_all net.now.places net.now.roads stops.now way }
{
    let mut at = way;
    for c in stops {
        at = reach(at, *c as usize, net)?;
    }
    Some(at)
}

// The return leg is added; then both limits are asked.
#[tactic(auto, unfolding(crate::specs::Check::home_allowed))]
pub fn home_allowed(way: Way, depot: usize, limits: RouteLimits, roads: &DistanceMatrix) -> bool
    requires square { Square roads.now }
    requires prev_lt_n { (way.prev < roads.now.size) × (depot < roads.now.size) }
    ensures { result ≡ home_allowed roads.now depot limits way }
{
    let distance = way.distance + get(roads, way.prev, depot);
    let duration = way.time + travel_time(roads, way.prev, depot);
    limits.allow(distance, duration)
}

// Whether the route depot, stops, depot passes.
#[tactic(auto, unfolding(crate::specs::Check::route_feasible))]
pub fn route_feasible(route: &[u16], depot: usize, limits: RouteLimits, net: &Network) -> bool
    requires { (depot < net.now.roads.size) × Stops net.now.roads.size route.now }
    ensures { result ≡ route_feasible net.now.places net.now.roads depot limits route.now }
{
    let Some(rest) = limits.rest else {
        let walked = reach_all(Way::new(depot), route, net);
        let Some(way) = walked else {
            return false;
        };
        return home_allowed(way, depot, limits, &net.roads);
    };
    let e = schedule(route, depot, rest, net);
    is_feasible(limited(e, limits))
}
