// What is saved where a route goes (local_search/route_elimination.rs, `saved` in the body of `for r in order`): its worth and its fixed cost.
#![tactic(auto)]

ghost use Rattle.std.specs.Prelude.{◌≡◌, ◌<◌, length};
ghost use Rattle.emptied_route.specs.floats.Binary64.{◌⊕◌};
ghost use Rattle.emptied_route.specs.models.Problem.{Stops};
ghost use Rattle.emptied_route.specs.models.Vehicle.{fixed_cost_in_distance};
ghost use Rattle.emptied_route.specs.plan.Plan.{route};
ghost use Rattle.emptied_route.specs.plan.Given.{routes_left};
ghost use Rattle.emptied_route.specs.reinsertion_worth.Worth.{worth};
ghost use Rattle.emptied_route.specs.evaluation.Given.{of_instance};

use emptied_route::routes::EachRoute;
use emptied_route::worth;

// Of the crates below, passed on to those above.
pub use emptied_route::{
    Counts, Demand, Elimination, Instance, LocalSearchNext, Pick, Problem, Reduction, Vehicle,
    empty_route, is_finite, pick_after, route_cost_gain_floor, routes,
};

// What is saved where route r goes: its worth and its fixed cost.
pub fn saved_by(routes: EachRoute, r: usize, given: &Instance) -> f64
    requires there { r < length routes.lengths.now }
    requires stops { Stops given.now.fleet.net.roads.size (route r (routes_left routes)) }
    ensures { result ≡ worth (of_instance given.now) (route r (routes_left routes.entry)) ⊕ fixed_cost_in_distance given.now.fleet.vehicle }
{
    let own = worth(routes.route(r), &given.fleet);
    own + given.fleet.vehicle.fixed_cost_in_distance()
}
