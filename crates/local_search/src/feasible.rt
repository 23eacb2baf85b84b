// The check of a route where it is needed, and whether a route is feasible.
ghost use Rattle.std.specs.Prelude.{◌≡◌, [], ◌<◌, ◌≤◌, length};
ghost use Rattle.route_order.specs.laws.Edits.{insert_at};
ghost use Rattle.route_load.specs.models.RouteLimits.{limits_of};
ghost use Rattle.route_load.specs.models.Lent.{of_problem};
ghost use Rattle.route_load.specs.models.Problem.{Admitted, Stops};
ghost use Rattle.route_load.specs.evaluation.Check.{route_checks_needed};
ghost use Rattle.route_load.specs.Feasible.{checked, feasible};
ghost use Rattle.route_load.specs.evaluation.Given.{of_instance, of_fleet};

use route_load::{
    Demand, Fleet, Instance, Problem, RouteLimits, Vehicle,
    evaluation_route_feasible as route_feasible, has_soft_windows, route_checks_needed,
    trial_feasible, within_capacity,
};

// Whether the route check is needed. A search asks this once.
pub fn constrained(flags: &[u8], vehicle: Vehicle) -> bool
    ensures { result ≡ route_checks_needed flags.now (limits_of vehicle) }
{
    route_checks_needed(flags, RouteLimits::of(vehicle))
}

// The instance of a problem that may be searched.
pub fn instance<'a>(problem: &Problem<'a>) -> Instance<'a>
    requires { Admitted (of_problem problem.now) }
    ensures { of_instance result ≡ of_problem problem.now }
{
    Instance {
        fleet: Fleet {
            net: problem.network(),
            vehicle: problem.vehicle,
            needed: constrained(problem.places.flags(), problem.vehicle),
            soft: has_soft_windows(problem.places.flags()),
        },
        demand: Demand {
            cells: problem.demand,
        },
    }
}

// Whether a route passes the check, where it is needed.
pub fn checked(route: &[u16], fleet: &Fleet) -> bool
    requires { Stops fleet.now.net.roads.size route.now }
    ensures { result ≡ checked (of_fleet fleet.now) route.now }
{
    !fleet.needed
        || route_feasible(
            route,
            fleet.vehicle.depot_id,
            RouteLimits::of(fleet.vehicle),
            &fleet.net,
        )
}

// Whether a route with c put in at pos passes the check, where it is needed. With `has_room` it makes the trial route feasible.
pub fn trial_ok(route: &[u16], pos: usize, c: usize, fleet: &Fleet) -> bool
    requires { (c < fleet.now.net.roads.size) × (pos ≤ length route.now) × Stops fleet.now.net.roads.size route.now }
    ensures { result ≡ checked (of_fleet fleet.now) (insert_at pos c route.now) }
{
    !fleet.needed
        || trial_feasible(
            route,
            pos,
            c,
            fleet.vehicle.depot_id,
            RouteLimits::of(fleet.vehicle),
            &fleet.net,
        )
}

// Whether a route is feasible: within capacity, and passing the check where it is needed.
#[tactic(auto, unfolding(route_load::specs::Feasible::feasible))]
pub fn feasible(route: &[u16], given: &Instance) -> bool
    requires { Stops given.now.fleet.net.roads.size route.now }
    ensures { result ≡ feasible (of_instance given.now) route.now }
{
    within_capacity(route, &given.demand, given.fleet.vehicle) && checked(route, &given.fleet)
}
