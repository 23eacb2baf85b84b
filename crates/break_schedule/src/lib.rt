// A route with a driver's break, driven stop by stop on the break's clock (evaluation/schedule.rs, `schedule`).
#![tactic(auto)]

ghost use Rattle.std.specs.Prelude.{◌≡◌, ◌<◌, ◌≤◌, ◌+◌, length};
ghost use Rattle.break_clock.specs.models.Problem.{Square, Stops};
ghost use Rattle.break_clock.specs.Schedule.{ride, ride_all, ride_home, schedule};

// Of the crates below, passed on to those above.
pub use break_clock::route_eval::RouteEval;
pub use break_clock::schedule::Riding;
pub use break_clock::{
    Customer, Customers, DistanceMatrix, Label, Network, Problem, RouteLimits, TimeWindow, Vehicle,
    VehicleBreak, abs, customer_at, get, infinity, is_finite, is_penalised, is_windowed, largest,
    max, min, penalty_at, scale, serve_at, total_less, travel_time, window_at,
};

// The drive to the next stop, on the clock and in distance.
#[tactic(auto, unfolding(break_clock::specs::Schedule::ride))]
pub fn ride(way: Riding, rest: VehicleBreak, c: usize, net: &Network) -> Option<Riding>
    requires { (way.clock.prev < net.now.roads.size) × (c < net.now.roads.size) × (way.clock.index ≤ 256) }
    ensures { result ≡ ride net.now.places net.now.roads rest way c }
{
    let distance = way.distance + get(&net.roads, way.clock.prev, c);
    let clock = way.clock.push(rest, c, net)?;
    Some(Riding { clock, distance })
}

// The stops in order, as far as they can be served with the break.
#[tactic(auto, using(break_clock::proofs::ScheduleLaws::along_laws))]
pub fn ride_all(way: Riding, rest: VehicleBreak, stops: &[u16], net: &Network) -> Option<Riding>
    requires { (way.clock.prev < net.now.roads.size) × Stops net.now.roads.size stops.now × (way.clock.index + length stops.now ≤ 257) }
    ensures { result ≡ ride_all net.now.places net.now.roads rest stops.now way }
{
    let mut at = way;
    for c in stops {
        at = ride(at, rest, *c as usize, net)?;
    }
    Some(at)
}

// The return leg is added, and the clock's end decides.
#[tactic(auto, unfolding(break_clock::specs::Schedule::ride_home))]
pub fn ride_home(
    way: Riding,
    rest: VehicleBreak,
    depot: usize,
    roads: &DistanceMatrix,
) -> Option<RouteEval>
    requires square { Square roads.now }
    requires prev_lt_n { (way.clock.prev < roads.now.size) × (depot < roads.now.size) }
    ensures { result ≡ ride_home roads.now rest depot way }
{
    let distance = way.distance + get(roads, way.clock.prev, depot);
    way.clock.finish(rest, distance, depot, roads)
}

// The route depot, stops, depot with a break, or that it cannot be driven. The limits are the caller's to apply.
#[tactic(auto, using(break_clock::proofs::ScheduleLaws::ride_ends), unfolding(break_clock::specs::Schedule::schedule))]
pub fn schedule(route: &[u16], depot: usize, rest: VehicleBreak, net: &Network) -> Option<RouteEval>
    requires { (depot < net.now.roads.size) × Stops net.now.roads.size route.now }
    ensures { result ≡ schedule net.now.places net.now.roads depot rest route.now }
{
    let at = ride_all(Riding::new(depot), rest, route, net)?;
    ride_home(at, rest, depot, &net.roads)
}
