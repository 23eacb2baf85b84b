// The lines of routes, numbered from 1, put on a page.
#![tactic(auto)]

ghost use Rattle.std.specs.Prelude.{◌≡◌, ◌*◌, ◌<◌, ◌≤◌, length};
ghost use Rattle.listing_lines.specs.laws.All.{All};
ghost use Rattle.listing_lines.specs.models.Problem.{Stops, Demands};
ghost use Rattle.listing_lines.specs.plan.Given.{routes_left};
ghost use Rattle.listing_lines.specs.listing.Listing.{Prints, line_of, route_lines};
ghost use Rattle.listing_lines.specs.listing_numbers.Put.{HasRoom, Puts};
ghost use Rattle.listing_lines.specs.models.Lent.{of_problem};

use listing_lines::each::EachRoute;
use listing_lines::{
    Demand, Page, Problem, Vehicle, load, put_route_line,
    route_cost_route_distance as route_distance,
};

// Of the crates below, passed on to those above.
pub use listing_lines::each;

// The line of a route, with its load and its distance.
fn put_route(page: &mut Page<'_>, number: u64, route: &[u16], problem: &Problem)
    requires room { HasRoom page.old (line_of (of_problem problem.now) number route.now) }
    requires few { problem.now.roads.now.size ≤ 256 }
    requires cells { length problem.now.roads.now.distances ≡ problem.now.roads.now.size * problem.now.roads.now.size }
    requires depot_in { problem.now.vehicle.depot_id < problem.now.roads.now.size }
    requires demands { Demands problem.now.roads.now.size problem.now.demand.now }
    requires stops { Stops problem.now.roads.now.size route.now }
    requires prints { Prints (of_problem problem.now) route.now }
    ensures { Puts page.old (line_of (of_problem problem.now) number route.now) page.new }
{
    let demand = Demand {
        cells: problem.demand,
    };
    let sum = load(route, &demand);
    let distance = route_distance(route, problem.vehicle.depot_id, problem.roads);
    put_route_line(page, number, sum, distance as u64, route);
}

// The lines of the routes, numbered from 1.
pub fn put_routes(page: &mut Page<'_>, routes: EachRoute, problem: &Problem)
    requires room { HasRoom page.old (route_lines (of_problem problem.now) 1 (routes_left routes)) }
    requires few { problem.now.roads.now.size ≤ 256 }
    requires cells { length problem.now.roads.now.distances ≡ problem.now.roads.now.size * problem.now.roads.now.size }
    requires depot_in { problem.now.vehicle.depot_id < problem.now.roads.now.size }
    requires demands { Demands problem.now.roads.now.size problem.now.demand.now }
    requires stops { All (Stops problem.now.roads.now.size) (routes_left routes) }
    requires prints { All (Prints (of_problem problem.now)) (routes_left routes) }
    ensures { Puts page.old (route_lines (of_problem problem.now) 1 (routes_left routes.entry)) page.new }
{
    for (k, route) in routes.enumerate() {
        put_route(page, k as u64 + 1, route, problem);
    }
}
