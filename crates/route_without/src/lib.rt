// The plan without a route, whose stops are emptied into the others (local_search/route_minimization.rs, in the body of the round in `minimize_routes`).
#![tactic(auto)]

ghost use Rattle.std.specs.Prelude.{◌≡◌, ◌<◌, ◌≤◌, length};
ghost use Rattle.route_removal.specs.plan.Plan.{split};
ghost use Rattle.route_removal.specs.plan.Given.{plan_of, Keeps};
ghost use Rattle.pool_attempt.specs.route_cost.Route.{cost};
ghost use Rattle.pool_attempt.specs.pool_cost.Attempt.{attempt};
ghost use Rattle.pool_attempt.specs.ejection_pool.Running.{allowed, of_minimisation};
ghost use Rattle.pool_attempt.specs.local_search.Search.{EndsWith0, but_last};
ghost use Rattle.pool_attempt.specs.Judged.{tried};
ghost use Rattle.route_without.specs.Attempting.{Attempting};

use pool_attempt::routes::Routes;
use pool_attempt::{Pool, try_rest};
use route_pool::to_pool;
use route_removal::erase_route;

// Of the crates below, passed on to those above.
pub use pool_attempt::{Counts, Minimisation, Times, routes};

// Route r is taken out of the plan and emptied into the others. The work cells are free. An error is a plan that is to be kept.
pub fn try_without(
    routes: &mut Routes,
    work: &mut [u16],
    times: &mut Times,
    r: usize,
    before: f64,
    counted: Counts,
    given: &Minimisation,
) -> Result<Counts, Counts>
    requires attempting { Attempting (of_minimisation given.now) given.now.allowance.limit routes.old counted }
    requires has_room { length routes.old.stops.now ≤ length work.old }
    requires r_in_bounds { r < length routes.old.lengths.now }
    requires before_value { before ≡ cost (of_minimisation given.now) (plan_of routes.old) }
    ensures plan { tried result (split (but_last routes.new.lengths.now) routes.new.stops.now) ≡ attempt (allowed given.now.allowance)
        (of_minimisation given.now) (plan_of routes.old) r counted }
    ensures held { EndsWith0 routes.new.lengths.now routes.new.stops.now }
    ensures kept { Keeps routes.old routes.new }
{
    let mut pool: Pool = to_pool(routes.each(), r);
    erase_route(routes, r);
    let rest = routes.lengths.len() - 1;
    try_rest(
        &mut routes.lengths[..rest],
        routes.stops,
        &mut pool,
        work,
        times,
        before,
        counted,
        given,
    )
}
