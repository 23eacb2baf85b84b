// The attempt to move the stops of a route into the others (local_search/route_elimination.rs, the body of `for r in order`), and the plan put back where
// nothing is gained.
#![tactic(auto)]

ghost use Rattle.std.specs.Prelude.{◌≡◌, ◌+◌, ◌≤◌, length};
ghost use Rattle.plan_copy.specs.plan.Plan.{split};
ghost use Rattle.plan_copy.specs.plan.Given.{plan_of, Keeps};
ghost use Rattle.route_saving.specs.local_search.Options.{then_some};
ghost use Rattle.route_saving.specs.elimination_moves.Eliminate.{without_route};
ghost use Rattle.route_saving.specs.emptied_route.Attempts.{of_elimination, Attempted, emptied, fewer, Left};

use plan_copy::{keep, restore};
use route_saving::routes::Routes;
use route_saving::{empty_route, is_finite, saved_by};

// Of the crates below, passed on to those above.
pub use plan_copy::drop_empty;
pub use route_saving::{
    Counts, Demand, Elimination, Instance, LocalSearchNext, Pick, Problem, Reduction, Vehicle,
    pick_after, route_cost_gain_floor, routes,
};

// Route r goes and its stops find other places, where that gains: else both slices are put back from the work cells.
fn try_without(
    routes: &mut Routes,
    work: &mut [u16],
    r: usize,
    saved: f64,
    given: &Elimination,
) -> bool
    requires attempted { Attempted (of_elimination given.now) routes.old r }
    requires room { length routes.old.lengths.now + length routes.old.stops.now ≤ length work.old }
    ensures plan { then_some result (split (fewer routes.old.lengths.now routes.new.lengths.now) routes.new.stops.now)
        ≡ emptied (of_elimination given.now) saved (plan_of routes.old) r }
    ensures slices { Left result routes.old routes.new }
    ensures kept { Keeps routes.old routes.new }
{
    keep(work, routes);
    let gained = empty_route(routes, r, saved, given);
    if gained {
        return true;
    }
    restore(routes.lengths, routes.stops, work);
    false
}

// The attempt: where the other routes take the stops of route r for less than it costs they are the plan, in one length less, and else both
// slices are as before. The work cells have room for both slices.
pub fn without_route(routes: &mut Routes, work: &mut [u16], r: usize, given: &Elimination) -> bool
    requires attempted { Attempted (of_elimination given.now) routes.old r }
    requires room { length routes.old.lengths.now + length routes.old.stops.now ≤ length work.old }
    ensures plan { then_some result (split (fewer routes.old.lengths.now routes.new.lengths.now) routes.new.stops.now)
        ≡ without_route (of_elimination given.now) (plan_of routes.old) r }
    ensures slices { Left result routes.old routes.new }
    ensures kept { Keeps routes.old routes.new }
{
    let saved = saved_by(routes.each(), r, given.instance);
    if is_finite(saved) {
        return try_without(routes, work, r, saved, given);
    }
    false
}
