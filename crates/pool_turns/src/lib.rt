// The turns of the ejection pool (local_search/route_minimization.rs, `Pool::empty_into`): the stops of a route go into the others, one by one, each to its
// cheapest place or, where it has none, in for others that go onto the pool.
#![tactic(auto)]

ghost use Rattle.std.specs.Prelude.{◌≡◌, length};
ghost use Rattle.pool_turn.specs.plan.Given.{plan_of, Keeps};
ghost use Rattle.pool_turn.specs.ejection_pool.Pool.{run_pool};
ghost use Rattle.pool_turn.specs.ejection_pool.Running.{Running, state, allowed, of_minimisation};
ghost use Rattle.pool_turns.specs.Ends.{said};

use pool_turn::one_turn;
use pool_turn::routes::Routes;

// Of the crates below, passed on to those above.
pub use pool_turn::{Counts, Minimisation, Pool, Times, routes};

// The pool is emptied into the routes, within the step limit and while the clock lets the call go on. An error is a pool that is not emptied. Either comes
// with the counts of the call so far.
pub fn empty_into(
    routes: &mut Routes,
    pool: &mut Pool,
    work: &mut [u16],
    times: &mut Times,
    failures: &mut [u32],
    counted: Counts,
    given: &Minimisation,
) -> Result<Counts, Counts>
    requires { Running (of_minimisation given.now) given.now.allowance.limit (plan_of routes.old) (length routes.old.stops.now) pool.old work.old
        failures.old counted }
    ensures plan { said result (plan_of routes.new) ≡ run_pool (allowed given.now.allowance) (of_minimisation given.now) given.now.allowance.limit
        (state (plan_of routes.old) pool.old failures.old counted) }
    ensures kept { Keeps routes.old routes.new }
{
    let mut left = given.allowance.limit;
    let mut counts = counted;
    while !pool.is_empty() {
        if left == 0 || given.allowance.clock <= counts.steps {
            return Err(counts);
        }
        left -= 1;
        counts = one_turn(routes, pool, work, times, failures, counts, given)?;
    }
    Ok(counts)
}
