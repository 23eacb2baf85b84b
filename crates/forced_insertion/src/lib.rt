// A stop of the pool goes into the routes (local_search/route_minimization.rs, `Pool::empty_into`): to its cheapest place or, where it has none, in for others
// that go onto the pool.
#![tactic(auto)]

ghost use Rattle.std.specs.Prelude.{◌≡◌, ◌+◌, ◌<◌, length};
ghost use Rattle.cheapest_insertion.specs.plan.Plan.{total};
ghost use Rattle.cheapest_insertion.specs.plan.Given.{plan_of, Keeps, Becomes};
ghost use Rattle.cheapest_insertion.specs.local_search.Planned.{Planned};
ghost use Rattle.cheapest_insertion.specs.insertion.Cheapest.{cheapest};
ghost use Rattle.made_room.specs.ejection.Eject.{eject};
ghost use Rattle.made_room.specs.ejection_made.Made.{pooled};
ghost use Rattle.ejection_pool.specs.Pool.{after_eject};
ghost use Rattle.ejection_pool.specs.Running.{Forcing, of_minimisation, is_there, put_best, one_more};
ghost use Rattle.forced_insertion.specs.Turned.{as_turn};
ghost use Rattle.cheapest_insertion.specs.evaluation.Given.{of_instance};

use cheapest_insertion::cheapest;
use ejection_pool::routes::Routes;
use made_room::{Draws, Sought, eject, make_room, perturb};

// Of the crates below, passed on to those above.
pub use cheapest_insertion::{Counts, Instance, Times};
pub use ejection_pool::{Minimisation, Pool, routes};

// The stop c goes to its cheapest place, if it has one.
pub fn place(routes: &mut Routes, times: &mut Times, c: u16, given: &Instance) -> bool
    requires planned { Planned given.now.fleet.net.roads.size (plan_of routes.old) }
    requires place { c < given.now.fleet.net.roads.size }
    requires has_room { total routes.old.lengths.now < length routes.old.stops.now }
    ensures found { result ≡ is_there (cheapest (of_instance given.now) (plan_of routes.old) c) }
    ensures plan { Becomes routes.old (put_best c (cheapest (of_instance given.now) (plan_of routes.old) c) (plan_of routes.old))
        (total routes.old.lengths.now + one_more result) routes.new }
{
    let Some(best) = cheapest(times, routes.each(), c as usize, given) else {
        return false;
    };
    routes.put_in(best.route, best.pos, c);
    true
}

// The stop c goes in for others: the best ejection is made, and the plan perturbed. An error is that no ejection works; either comes with the counts of the
// call so far.
pub fn force(
    routes: &mut Routes,
    pool: &mut Pool,
    work: &mut [u16],
    times: &mut Times,
    failures: &[u32],
    c: u16,
    counts: Counts,
    given: &Minimisation,
) -> Result<Counts, Counts>
    requires { Forcing (of_minimisation given.now) routes.old pool.old work.old failures.now c counts }
    ensures plan { as_turn result (plan_of routes.new) pool.new failures.now ≡ after_eject given.now.allowance.tape.now (of_minimisation given.now)
        (plan_of routes.old) counts c (pooled pool.old) failures.now (eject (of_minimisation given.now) (plan_of routes.old) c failures.now) }
    ensures kept { Keeps routes.old routes.new }
{
    let instance = given.instance;
    let sought = Sought {
        c: c as usize,
        failures,
        given: instance,
    };
    let found = eject(work, times, &sought, routes.each());
    let steps = counts.steps + 1;
    let Some(e) = found else {
        return Err(Counts { steps, ..counts });
    };
    make_room(routes, pool, e, c);
    let mut draws = Draws {
        tape: given.allowance.tape,
        next: counts.draws,
    };
    perturb(routes, work, &mut draws, instance);
    let draws = draws.next;
    Ok(Counts { steps, draws })
}
