// The walk of an evaluation (evaluation/mod.rs, `route_eval`): one stop, the stops in order, and the way home.
#![tactic(auto)]

ghost use Rattle.std.specs.Prelude.{◌≡◌, ◌<◌};
ghost use Rattle.trial_route.specs.models.Problem.{Square, Stops};
ghost use Rattle.trial_route.specs.evaluation.Eval.{drive, drive_all, home};

use trial_route::{customer_at, get, serve_at, travel_time};

// Of the crates below, passed on to those above.
pub use trial_route::{
    Customers, Demand, DistanceMatrix, Fleet, Instance, Network, Problem, RouteEval, RouteLimits,
    TimeWindow, Vehicle, VehicleBreak, Walk, break_schedule_schedule, has_soft_windows, infinity,
    is_finite, largest, limited, max, penalty_at, total_less, window_at,
};

// The drive to the next stop and the service there.
pub fn drive(walk: Walk, c: usize, net: &Network) -> Option<Walk>
    requires { (walk.prev < net.now.roads.size) × (c < net.now.roads.size) }
    ensures { result ≡ drive net.now.places net.now.roads walk c }
{
    let distance = walk.distance + get(&net.roads, walk.prev, c);
    let arrival = walk.label.time + travel_time(&net.roads, walk.prev, c);
    let customer = customer_at(c, &net.places);
    let label = serve_at(walk.label, arrival, None, customer)?;
    Some(Walk {
        label,
        distance,
        prev: c,
    })
}

// The stops in order, as far as they can be served.
#[tactic(auto, using(crate::proofs::DriveLaws::driving_laws))]
pub fn drive_all(walk: Walk, stops: &[u16], net: &Network) -> Option<Walk>
    requires { (walk.prev < net.now.roads.size) × Stops net.now.roads.size stops.now }
    ensures { result ≡ drive_all net.now.places net.now.roads stops.now walk }
{
    let mut at = walk;
    for c in stops {
        at = drive(at, *c as usize, net)?;
    }
    Some(at)
}

// The return leg is added; then both limits are asked.
pub fn home(
    walk: Walk,
    depot: usize,
    limits: RouteLimits,
    roads: &DistanceMatrix,
) -> Option<RouteEval>
    requires square { Square roads.now }
    requires prev_lt_n { (walk.prev < roads.now.size) × (depot < roads.now.size) }
    ensures { result ≡ home roads.now depot limits walk }
{
    let distance = walk.distance + get(roads, walk.prev, depot);
    let duration = walk.label.time + travel_time(roads, walk.prev, depot);
    limits
        .allow(distance, duration)
        .then_some(RouteEval::of(walk.label, distance, duration, None))
}
