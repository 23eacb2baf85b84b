// The check of two routes of the plan.
ghost use Rattle.std.specs.Prelude.{◌≡◌, ◌<◌, length};
ghost use Rattle.exchanged_stops.specs.plan.Given.{routes_left};
ghost use Rattle.perturbation.specs.local_search.Planned.{Planned};
ghost use Rattle.perturbation.specs.Perturb.{stands};
ghost use Rattle.perturbation.specs.evaluation.Given.{of_instance};

use exchanged_stops::routes::EachRoute;
use perturbation::{Instance, checked, within_capacity};

// Whether routes a and b are both feasible: both loads first, since a load is sooner told than a check.
#[tactic(auto, using(crate::proofs::ExchangeLaws::stands_laws))]
pub fn both_feasible(routes: EachRoute, a: usize, b: usize, given: &Instance) -> bool
    requires first { a < length routes.lengths.now }
    requires second { b < length routes.lengths.now }
    requires planned { Planned given.now.fleet.net.roads.size (routes_left routes) }
    ensures { result ≡ stands (of_instance given.now) a b (routes_left routes.entry) }
{
    let one = routes.route(a);
    let other = routes.route(b);
    let vehicle = given.fleet.vehicle;
    within_capacity(one, &given.demand, vehicle)
        && within_capacity(other, &given.demand, vehicle)
        && checked(one, &given.fleet)
        && checked(other, &given.fleet)
}
