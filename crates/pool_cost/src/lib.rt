// The test of the cost in the round of `minimize_routes` (local_search/route_minimization.rs): a plan is accepted where it costs less by more than the
// tolerance.
#![tactic(auto)]

ghost use Rattle.std.specs.Prelude.{◌≡◌, ◌*◌, ◌<◌, ◌≤◌, length};
ghost use Rattle.std.specs.Float.Ieee.{lt};
ghost use Rattle.plan_cost.specs.floats.Binary64.{◌⊖◌, ◌⊗◌, 1e-12, abs};
ghost use Rattle.plan_cost.specs.models.Problem.{of_roads, Stops};
ghost use Rattle.plan_cost.specs.laws.All.{All};
ghost use Rattle.plan_cost.specs.plan.Given.{routes_left};
ghost use Rattle.plan_cost.specs.route_cost.Route.{cost};

use plan_cost::abs;
use plan_cost::each::EachRoute;

// Of the crates below, passed on to those above.
pub use ejection_pool::{
    Allowance, Counts, LocalSearchNext, Minimisation, Pick, Pool, Reduction, pick_after, rounds,
    routes,
};
pub use plan_cost::{
    Customers, DistanceMatrix, Problem, Vehicle, copy_cells, copy_part, each, plan_cost,
};

// Whether a plan costs less than `before` by more than the tolerance.
pub fn is_cheaper(routes: EachRoute, before: f64, vehicle: Vehicle, roads: &DistanceMatrix) -> bool
    requires n_bound { (roads.now.size ≤ 256) × (length roads.now.distances ≡ roads.now.size * roads.now.size) }
    requires depot_id_bound { vehicle.depot_id < roads.now.size }
    requires stops { All (Stops roads.now.size) (routes_left routes) }
    ensures { result ≡ lt (cost (of_roads roads.now vehicle) (routes_left routes.entry)) (before ⊖ 1e-12 ⊗ abs before) }
{
    plan_cost(routes, vehicle, roads) < before - 1e-12 * abs(before)
}
