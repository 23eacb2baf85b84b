// Room made for a stop (local_search/route_minimization.rs, `Pool::empty_into`): the one or the two stops of an ejection leave, and the stop goes in.
#![tactic(auto)]

ghost use Rattle.std.specs.Prelude.{◌+◌, ◌<◌, length};
ghost use Rattle.ejection_made.specs.plan.Given.{plan_of};
ghost use Rattle.ejection_made.specs.ejection.Ejected.{Inside};
ghost use Rattle.ejection_made.specs.Made.{Made};

use ejection_made::routes::Routes;
use ejection_made::{ArrayVec, Ejection, make_one, make_two};

// Of the crates below, passed on to those above.
pub use random_moves::{Draws, Sought, eject, perturb};

// The ejection is made for c.
pub fn make_room<const N: usize>(
    routes: &mut Routes,
    pool: &mut ArrayVec<u16, N>,
    e: Ejection,
    c: u16,
)
    requires inside { Inside (plan_of routes.old) e }
    requires has_room { length pool.old.items + 1 < N }
    ensures { Made routes.old pool.old c e routes.new pool.new }
{
    if e.first < e.second {
        make_two(routes, pool, e, c);
    } else {
        make_one(routes, pool, e, c);
    }
}
