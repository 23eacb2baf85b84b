// The search for the best ejection over the routes of a plan (local_search/route_minimization.rs, `Pool::eject`): of one stop, or only if no single one works of
// two.
#![tactic(auto)]

ghost use Rattle.std.specs.Prelude.{◌≡◌, ◌≤◌, length};
ghost use Rattle.route_ejection.specs.laws.All.{All};
ghost use Rattle.route_ejection.specs.models.Problem.{Stops};
ghost use Rattle.route_ejection.specs.plan.Plan.{total};
ghost use Rattle.route_ejection.specs.plan.Given.{routes_left};
ghost use Rattle.route_ejection.specs.ejection.Eject.{eject};
ghost use Rattle.ejection_search.specs.Some.{try_some, eject_some};
ghost use Rattle.route_ejection.specs.evaluation.Given.{of_instance};

use route_ejection::routes::EachRoute;
use route_ejection::{Ejection, try_one, try_two};

// Of the crates below, passed on to those above.
pub use route_ejection::{
    Demand, Fleet, Instance, Sought, Times, Vehicle, checked, feasible, routes, within_capacity,
};

// One stop or two leave route k.
#[tactic(auto, unfolding(crate::specs::Some::try_some))]
fn try_some(
    work: &mut [u16],
    times: &mut Times,
    sought: &Sought,
    route: &[u16],
    k: usize,
    two: bool,
    best: Option<Ejection>,
) -> Option<Ejection>
    requires stops { Stops sought.now.given.now.fleet.net.roads.size route.now }
    requires room { length route.now ≤ length work.old }
    ensures { result ≡ try_some two (of_instance sought.now.given.now) sought.now.c sought.now.failures.now k route.now best }
{
    if two {
        try_two(work, times, sought, route, k, best)
    } else {
        try_one(work, times, sought, route, k, best)
    }
}

// One stop or two leave a route of the plan.
fn eject_some(
    work: &mut [u16],
    times: &mut Times,
    sought: &Sought,
    routes: EachRoute,
    two: bool,
) -> Option<Ejection>
    requires stops { All (Stops sought.now.given.now.fleet.net.roads.size) (routes_left routes) }
    requires room { total routes.lengths.now ≤ length work.old }
    ensures { result ≡ eject_some two (of_instance sought.now.given.now) (routes_left routes.entry) sought.now.c sought.now.failures.now }
{
    let mut best = None;
    for (k, route) in routes.enumerate() {
        best = try_some(work, times, sought, route, k, two, best);
    }
    best
}

// The best ejection for the stop that is to go in: of one stop, or only if no single one works of two.
pub fn eject(
    work: &mut [u16],
    times: &mut Times,
    sought: &Sought,
    routes: EachRoute,
) -> Option<Ejection>
    requires stops { All (Stops sought.now.given.now.fleet.net.roads.size) (routes_left routes) }
    requires room { total routes.lengths.now ≤ length work.old }
    ensures { result ≡ eject (of_instance sought.now.given.now) (routes_left routes.entry) sought.now.c sought.now.failures.now }
{
    let one = eject_some(work, times, sought, routes, false);
    one.or_else(|| eject_some(work, times, sought, routes, true))
}
