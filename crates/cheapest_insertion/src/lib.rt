// The cheapest place for a stop (local_search/route_minimization.rs, `Pool::cheapest`): over the routes of a plan and then their positions.
#![tactic(auto)]

ghost use Rattle.std.specs.Prelude.{◌≡◌, ◌<◌};
ghost use Rattle.route_insertion.specs.laws.All.{All};
ghost use Rattle.route_insertion.specs.models.Problem.{Stops};
ghost use Rattle.route_insertion.specs.plan.Given.{routes_left};
ghost use Rattle.route_insertion.specs.insertion.Cheapest.{cheapest};
ghost use Rattle.route_insertion.specs.evaluation.Given.{of_instance};

use route_insertion::routes::EachRoute;
use route_insertion::{Insertion, try_route};

// Of the crates below, passed on to those above.
pub use route_insertion::{Counts, Demand, Instance, Times, Vehicle, routes};

// The cheapest feasible insertion of c into a plan, over its routes and then their positions: the first found among equals. The work cells
// may hold anything.
pub fn cheapest(
    times: &mut Times,
    routes: EachRoute,
    c: usize,
    given: &Instance,
) -> Option<Insertion>
    requires stops { All (Stops given.now.fleet.net.roads.size) (routes_left routes) }
    requires there { c < given.now.fleet.net.roads.size }
    ensures { result ≡ cheapest (of_instance given.now) (routes_left routes.entry) c }
{
    let mut best = None;
    for (k, route) in routes.enumerate() {
        best = try_route(times, route, c, k, best, given);
    }
    best
}
