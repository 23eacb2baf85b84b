// One attempt after the other in a round of minimisation: the routes by length, stable, until one is accepted or none is left
// (local_search/route_minimization.rs, `for r in order`).
#![tactic(auto)]

ghost use Rattle.std.specs.Prelude.{◌≡◌, ◌*◌, ◌<◌, ◌≤◌, length};
ghost use Rattle.minimization.specs.models.Problem.{of_roads};
ghost use Rattle.minimization.specs.plan.Plan.{Lent, split, padded, drop_zero};
ghost use Rattle.minimization.specs.plan.Given.{plan_of, Keeps};
ghost use Rattle.minimization.specs.route_order.Order.{following};
ghost use Rattle.minimization.specs.local_search.Planned.{Planned};
ghost use Rattle.minimization.specs.route_cost.Route.{cost};
ghost use Rattle.minimization.specs.local_search.Rounds.{try_each};
ghost use Rattle.minimization.specs.local_search.Search.{but_last, tried_next, NextLeaves};
ghost use Rattle.minimization.specs.pool_cost.Attempt.{attempt};
ghost use Rattle.minimization.specs.ejection_pool.Running.{allowed, of_minimisation};
ghost use Rattle.route_attempt.specs.route_without.Attempting.{Attempting};

use minimization::each::EachRoute;
use minimization::routes::Routes;
use minimization::{LocalSearchNext as Next, pick_after, plan_cost};
use route_attempt::{attempt, drop_empty};

// Of the crates below, passed on to those above.
pub use minimization::{
    Allowance, Counts, Customers, DistanceMatrix, LocalSearchNext, Minimisation, Pick, Problem,
    Reduction, Vehicle, rounds, routes,
};
pub use route_attempt::{Bench, Times};

// What a round starts with: how many routes there are, and what they cost.
#[derive(Clone, Copy)]
pub struct Round {
    pub count: usize,
    pub before: f64,
}

// Empty routes are dropped, and the others are counted and their cost summed.
pub fn begin(lengths: &mut [u16], stops: &[u16], vehicle: Vehicle, roads: &DistanceMatrix) -> Round
    requires n_bound { (roads.now.size ≤ 256) × (length roads.now.distances ≡ roads.now.size * roads.now.size) }
    requires depot_id_bound { vehicle.depot_id < roads.now.size }
    requires lent { Lent lengths.old stops.now }
    requires planned { Planned roads.now.size (split lengths.old stops.now) }
    ensures rest { lengths.new ≡ padded (length lengths.old) (drop_zero lengths.old) }
    ensures count { result.count ≡ length (drop_zero lengths.old) }
    ensures cost { result.before ≡ cost (of_roads roads.now vehicle) (split (drop_zero lengths.old) stops.now) }
{
    let count = drop_empty(lengths);
    let routes = EachRoute {
        lengths: &lengths[..count],
        stops,
    };
    let before = plan_cost(routes, vehicle, roads);
    Round { count, before }
}

// The attempt at the route that comes next after the last pick, in a plan that costs `before`.
pub fn try_next(
    routes: &mut Routes,
    bench: &mut Bench,
    last: Option<Pick>,
    before: f64,
    counted: Counts,
    given: &Minimisation,
) -> Next
    requires attempting { Attempting (of_minimisation given.now) given.now.allowance.limit routes.old counted }
    requires before_value { before ≡ cost (of_minimisation given.now) (plan_of routes.old) }
    requires few { length routes.old.lengths.now ≤ 256 }
    requires drawn { counted.draws ≤ 500 * counted.steps }
    ensures round { tried_next (attempt (allowed given.now.allowance) (of_minimisation given.now)) (plan_of routes.old) routes.old.lengths.now counted
        result (split (but_last routes.new.lengths.now) routes.new.stops.now) ≡ try_each (attempt (allowed given.now.allowance) (of_minimisation given.now))
        (plan_of routes.old) (following routes.old.lengths.now last) counted }
    ensures held { NextLeaves given.now.allowance.limit given.now.instance.now.fleet.net.roads.size routes.old.lengths.now routes.old.stops.now last counted result
        routes.new.lengths.now routes.new.stops.now }
    ensures kept { Keeps routes.old routes.new }
{
    let Some(pick) = pick_after(routes, last) else {
        return Next::End;
    };
    let tried = attempt(routes, bench, pick.route, before, counted, given);
    match tried {
        Err(counts) => Next::Kept(pick, counts),
        Ok(counts) => Next::Accepted(counts),
    }
}
