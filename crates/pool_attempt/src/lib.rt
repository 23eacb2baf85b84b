// The attempt to empty the pool into the routes, judged by what the plan costs then (local_search/route_minimization.rs, `empty_into` and the test of the cost
// in the round of `minimize_routes`).
#![tactic(auto)]

ghost use Rattle.std.specs.Prelude.{◌≡◌, length, replicate};
ghost use Rattle.pool_cost.specs.plan.Plan.{Lent, split};
ghost use Rattle.pool_cost.specs.plan.Given.{plan_of, Keeps};
ghost use Rattle.pool_cost.specs.ejection_pool.Pool.{run_pool};
ghost use Rattle.pool_cost.specs.ejection_pool.Running.{Running, state, allowed, of_minimisation};
ghost use Rattle.pool_attempt.specs.Judged.{tried, judged};

use pool_cost::is_cheaper;
use pool_cost::routes::Routes;
use pool_emptying::empty_pool;

// Of the crates below, passed on to those above.
pub use pool_cost::{Counts, Minimisation, Pool, routes};
pub use pool_emptying::Times;

// The pool is emptied into the routes, and the plan that is left is compared with `before`. An error is a plan that is kept as it was.
// Either comes with the counts of the call so far.
fn try_routes(
    routes: &mut Routes,
    pool: &mut Pool,
    work: &mut [u16],
    times: &mut Times,
    before: f64,
    counted: Counts,
    given: &Minimisation,
) -> Result<Counts, Counts>
    requires { Running (of_minimisation given.now) given.now.allowance.limit (plan_of routes.old) (length routes.old.stops.now) pool.old work.old
        (replicate given.now.instance.now.fleet.net.roads.size 1) counted }
    ensures plan { tried result (plan_of routes.new) ≡ judged (of_minimisation given.now) before
        (run_pool (allowed given.now.allowance) (of_minimisation given.now) given.now.allowance.limit
        (state (plan_of routes.old) pool.old (replicate given.now.instance.now.fleet.net.roads.size 1) counted)) }
    ensures kept { Keeps routes.old routes.new }
{
    let counts = empty_pool(routes, pool, work, times, counted, given)?;
    let fleet = &given.instance.fleet;
    if is_cheaper(routes.each(), before, fleet.vehicle, &fleet.net.roads) {
        Ok(counts)
    } else {
        Err(counts)
    }
}

// The same of a plan whose lengths and stops are lent one by one.
pub fn try_rest(
    lengths: &mut [u16],
    stops: &mut [u16],
    pool: &mut Pool,
    work: &mut [u16],
    times: &mut Times,
    before: f64,
    counted: Counts,
    given: &Minimisation,
) -> Result<Counts, Counts>
    requires lent { Lent lengths.old stops.old }
    requires running { Running (of_minimisation given.now) given.now.allowance.limit (split lengths.old stops.old) (length stops.old) pool.old work.old
        (replicate given.now.instance.now.fleet.net.roads.size 1) counted }
    ensures plan { tried result (split lengths.new stops.new) ≡ judged (of_minimisation given.now) before
        (run_pool (allowed given.now.allowance) (of_minimisation given.now) given.now.allowance.limit
        (state (split lengths.old stops.old) pool.old (replicate given.now.instance.now.fleet.net.roads.size 1) counted)) }
    ensures held { Lent lengths.new stops.new }
{
    let mut routes = Routes { lengths, stops };
    try_routes(&mut routes, pool, work, times, before, counted, given)
}
