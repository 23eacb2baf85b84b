// The ejection made: the plan is edited in place, and those who leave go onto the pool in route order.
#![tactic(auto)]

ghost use Rattle.std.specs.Prelude.{◌≡◌, ◌+◌, ◌<◌, length, slice_index};
ghost use Rattle.ejection.specs.plan.Plan.{HasPosition, HasStop, route, total, put_in, take_out};
ghost use Rattle.ejection.specs.plan.Given.{plan_of, Becomes};
ghost use Rattle.ejection.specs.Ejected.{Inside};
ghost use Rattle.ejection_made.specs.Made.{Made};

use ejection::routes::Routes;

// Of the crates below, passed on to those above.
pub use arrayvec::ArrayVec;
pub use ejection::{
    Counts, Ejection, Instance, LocalSearchNext, Pick, Reduction, pick_after, rounds, routes,
};

// The stops that wait for a place, the one on top last, as the attempts hold them.
pub type Pool = ArrayVec<u16, 256>;

// The stop at i leaves route k, and c goes in at pos of what is left. Returns the stop that left.
fn replace(routes: &mut Routes, k: usize, i: usize, pos: usize, c: u16) -> u16
    requires has_stop { HasStop (plan_of routes.old) k i }
    requires has_position { HasPosition (take_out k i (plan_of routes.old)) k pos }
    ensures plan { Becomes routes.old (put_in k pos c (take_out k i (plan_of routes.old))) (total routes.old.lengths.now) routes.new }
    ensures stop { result ≡ slice_index (route k (plan_of routes.old)) i }
{
    let x = routes.take_out(k, i);
    routes.put_in(k, pos, c);
    x
}

// One stop leaves.
pub fn make_one<const N: usize>(
    routes: &mut Routes,
    pool: &mut ArrayVec<u16, N>,
    e: Ejection,
    c: u16,
)
    requires inside { Inside (plan_of routes.old) e }
    requires one { e.first ≡ e.second }
    requires has_room { length pool.old.items < N }
    ensures { Made routes.old pool.old c e routes.new pool.new }
{
    let x = replace(routes, e.route, e.first, e.pos, c);
    pool.push(x);
}

// Two stops leave, and the later of them is on top of the pool.
pub fn make_two<const N: usize>(
    routes: &mut Routes,
    pool: &mut ArrayVec<u16, N>,
    e: Ejection,
    c: u16,
)
    requires inside { Inside (plan_of routes.old) e }
    requires two { e.first < e.second }
    requires has_room { length pool.old.items + 1 < N }
    ensures { Made routes.old pool.old c e routes.new pool.new }
{
    let y = routes.take_out(e.route, e.second);
    let x = replace(routes, e.route, e.first, e.pos, c);
    pool.push(x);
    pool.push(y);
}
