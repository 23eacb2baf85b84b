// A stop of a route moved into the other routes of the plan (local_search/route_elimination.rs, the body of `for c in moving`).
#![tactic(auto)]

ghost use Rattle.std.specs.Prelude.{◌≡◌, ◌+◌, ◌<◌, length};
ghost use Rattle.reinsertion.specs.plan.Plan.{total};
ghost use Rattle.reinsertion.specs.plan.Given.{plan_of, Keeps};
ghost use Rattle.elimination_moves.specs.Eliminate.{move_stop};
ghost use Rattle.reinsertion.specs.reinsertion_candidates.Asked.{Asked, Room};
ghost use Rattle.stop_moves.specs.Moves.{so_far, held_by, Kept};
ghost use Rattle.reinsertion.specs.evaluation.Given.{of_instance};

use reinsertion::place;
use reinsertion::routes::Routes;

// Of the crates below, passed on to those above.
pub use elimination_moves::take_largest;
pub use reinsertion::{
    Counts, Demand, Instance, LocalSearchNext, Move, Pick, Problem, Reduction, Vehicle, is_finite,
    pick_after, route_cost_gain_floor, routes, worth,
};

// The stop goes to its place. What was then added to the worth of the other routes; none where it has no place, and the plan is as it was.
pub fn move_stop(routes: &mut Routes, stop: Move, given: &Instance) -> Option<f64>
    requires asked { Asked (of_instance given.now) stop }
    requires room { Room given.now.fleet.net.roads.size routes.old.lengths.now routes.old.stops.now }
    requires free { total routes.old.lengths.now < length routes.old.stops.now }
    ensures moved { held_by result (plan_of routes.new) ≡ move_stop (of_instance given.now) stop.saved
        (so_far (plan_of routes.old) stop.added) stop.c }
    ensures grown { Kept given.now.fleet.net.roads.size result (total routes.old.lengths.now + 1) routes.new }
    ensures kept { Keeps routes.old routes.new }
{
    let found = place(routes.each(), stop, given)?;
    routes.put_in(found.route, found.pos, stop.c as u16);
    Some(stop.added + found.cost)
}
