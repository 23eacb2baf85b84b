// The start of `empty_into` (local_search/route_minimization.rs): the pool is emptied into the routes, with one failure for every place.
#![tactic(auto)]

ghost use Rattle.std.specs.Prelude.{◌≡◌, length, replicate};
ghost use Rattle.pool_turns.specs.plan.Given.{plan_of, Keeps};
ghost use Rattle.pool_turns.specs.ejection_pool.Pool.{run_pool};
ghost use Rattle.pool_turns.specs.ejection_pool.Running.{Running, state, allowed, of_minimisation};
ghost use Rattle.pool_turns.specs.Ends.{said};

use pool_turns::routes::Routes;
use pool_turns::{Counts, Minimisation, Pool, empty_into};

// Of the crates below, passed on to those above.
pub use pool_turns::Times;

// The pool is emptied into the routes, with a failure counted for every place at the start. An error is a pool that is not emptied.
pub fn empty_pool(
    routes: &mut Routes,
    pool: &mut Pool,
    work: &mut [u16],
    times: &mut Times,
    counted: Counts,
    given: &Minimisation,
) -> Result<Counts, Counts>
    requires { Running (of_minimisation given.now) given.now.allowance.limit (plan_of routes.old) (length routes.old.stops.now) pool.old work.old
        (replicate given.now.instance.now.fleet.net.roads.size 1) counted }
    ensures plan { said result (plan_of routes.new) ≡ run_pool (allowed given.now.allowance) (of_minimisation given.now) given.now.allowance.limit
        (state (plan_of routes.old) pool.old (replicate given.now.instance.now.fleet.net.roads.size 1) counted) }
    ensures kept { Keeps routes.old routes.new }
{
    let mut failures = [1u32; 256];
    empty_into(
        routes,
        pool,
        work,
        times,
        &mut failures[..given.instance.fleet.net.roads.size()],
        counted,
        given,
    )
}
