// One turn of the ejection pool (local_search/route_minimization.rs, `Pool::empty_into`): the stop on top goes into the routes, with one failure more where it
// has no place.
#![tactic(auto)]

ghost use Rattle.std.specs.Prelude.{◌≡◌, ◌+◌, ◌<◌, ◌^◌, drop, length, slice_index};
ghost use Rattle.forced_insertion.specs.plan.Given.{plan_of, Keeps};
ghost use Rattle.forced_insertion.specs.insertion.Cheapest.{cheapest};
ghost use Rattle.forced_insertion.specs.ejection_made.Made.{pooled};
ghost use Rattle.forced_insertion.specs.ejection_pool.Pool.{after_cheapest};
ghost use Rattle.forced_insertion.specs.ejection_pool.Running.{Running, state, of_minimisation};
ghost use Rattle.forced_insertion.specs.Turned.{as_turn};

use forced_insertion::routes::Routes;
use forced_insertion::{force, place};

// Of the crates below, passed on to those above.
pub use forced_insertion::{Counts, Minimisation, Pool, Times, routes};

// One turn: the stop on top of the pool is popped and goes to its cheapest place, or, with one failure more, in for others. An error is that no ejection
// works; either comes with the counts of the call so far.
pub fn one_turn(
    routes: &mut Routes,
    pool: &mut Pool,
    work: &mut [u16],
    times: &mut Times,
    failures: &mut [u32],
    counts: Counts,
    given: &Minimisation,
) -> Result<Counts, Counts>
    requires running { Running (of_minimisation given.now) 1 (plan_of routes.old) (length routes.old.stops.now) pool.old work.old failures.old
        counts }
    requires some { 0 < length pool.old.items }
    requires step { counts.steps + 1 < 2 ^ 64 }
    ensures plan { as_turn result (plan_of routes.new) pool.new failures.new ≡ after_cheapest given.now.allowance.tape.now (of_minimisation given.now)
        (state (plan_of routes.old) pool.old failures.old counts) (slice_index (pooled pool.old) 0) (drop 1 (pooled pool.old))
        (cheapest (of_minimisation given.now) (plan_of routes.old) (slice_index (pooled pool.old) 0)) }
    ensures kept { Keeps routes.old routes.new }
{
    let c = pool.pop().unwrap();
    if place(routes, times, c, given.instance) {
        return Ok(Counts {
            steps: counts.steps + 1,
            ..counts
        });
    }
    failures[c as usize] += 1;
    force(routes, pool, work, times, failures, c, counts, given)
}
