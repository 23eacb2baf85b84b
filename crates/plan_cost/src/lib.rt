// The cost of a plan: its routes' distances and fixed costs. It reads no travel times.
#![tactic(auto)]

ghost use Rattle.std.specs.Prelude.{◌≡◌, ◌*◌, ◌<◌, ◌≤◌, length};
ghost use Rattle.route_cost.specs.laws.All.{All};
ghost use Rattle.route_cost.specs.models.Problem.{of_roads, Stops};
ghost use Rattle.route_cost.specs.plan.Given.{routes_left};
ghost use Rattle.route_cost.specs.Route.{cost};

use route_cost::each::EachRoute;
use route_cost::route_distance;

// Of the crates below, passed on to those above.
pub use route_cost::{
    Customers, Demand, DistanceMatrix, Instance, Problem, Vehicle, abs, copy_cells, copy_part,
    each, has_soft_windows,
};

// The cost of a plan: the distance of each route and its fixed cost in distance, in route order.
pub fn plan_cost(routes: EachRoute, vehicle: Vehicle, roads: &DistanceMatrix) -> f64
    requires n_bound { (roads.now.size ≤ 256) × (length roads.now.distances ≡ roads.now.size * roads.now.size) }
    requires depot_id_bound { vehicle.depot_id < roads.now.size }
    requires stops { All (Stops roads.now.size) (routes_left routes) }
    ensures { result ≡ cost (of_roads roads.now vehicle) (routes_left routes.entry) }
{
    let depot = vehicle.depot_id;
    let fixed = vehicle.fixed_cost_in_distance();
    let mut sum = 0.0;
    for route in routes {
        sum = sum + (route_distance(route, depot, roads) + fixed);
    }
    sum
}
