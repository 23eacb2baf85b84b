// The stops of a route moved into the other routes of the plan, one after the other (local_search/route_elimination.rs, `for c in moving`).
#![tactic(auto)]

ghost use Rattle.std.specs.Prelude.{◌≡◌, ◌+◌, ◌-◌, ◌<◌, length, get_or, take};
ghost use Rattle.stop_moves.specs.laws.Edits.{erase};
ghost use Rattle.stop_moves.specs.plan.Plan.{total};
ghost use Rattle.stop_moves.specs.plan.Given.{plan_of, Keeps};
ghost use Rattle.stop_moves.specs.elimination_moves.Eliminate.{move_stop, move_all};
ghost use Rattle.stop_moves.specs.elimination_moves.Largest.{first_largest, in_order};
ghost use Rattle.stop_moves.specs.Moves.{so_far, held_by, Waiting, Kept};
ghost use Rattle.stop_moves.specs.evaluation.Given.{of_instance};

use stop_moves::routes::Routes;
use stop_moves::{Move, move_stop, take_largest};

// Of the crates below, passed on to those above.
pub use stop_moves::{
    Counts, Demand, Instance, LocalSearchNext, Pick, Problem, Reduction, Vehicle, is_finite,
    pick_after, route_cost_gain_floor, routes, worth,
};

// The first stop with the largest demand of those that are left goes to its place.
fn move_next(
    routes: &mut Routes,
    left: &mut [u16],
    added: f64,
    saved: f64,
    given: &Instance,
) -> Option<f64>
    requires waiting { Waiting (of_instance given.now) routes.old left.old }
    requires some { 0 < length left.old }
    ensures moved { held_by result (plan_of routes.new) ≡ move_stop (of_instance given.now) saved (so_far (plan_of routes.old) added)
        (get_or left.old (first_largest given.now.demand.cells.now left.old) 0) }
    ensures grown { Kept given.now.fleet.net.roads.size result (total routes.old.lengths.now + 1) routes.new }
    ensures rest { take (length left.old - 1) left.new ≡ erase (first_largest given.now.demand.cells.now left.old) left.old }
    ensures kept { Keeps routes.old routes.new }
{
    let c = take_largest(left, &given.demand) as usize;
    let stop = Move { c, added, saved };
    move_stop(routes, stop, given)
}

// The stops that are left go to their places, the largest demand first, until one has none.
pub fn move_all(routes: &mut Routes, left: &mut [u16], saved: f64, given: &Instance) -> Option<f64>
    requires waiting { Waiting (of_instance given.now) routes.old left.old }
    ensures moved { held_by result (plan_of routes.new) ≡ move_all (of_instance given.now) saved
        (in_order given.now.demand.cells.now (length left.old) left.old) (plan_of routes.old) }
    ensures grown { Kept given.now.fleet.net.roads.size result (total routes.old.lengths.now + length left.old) routes.new }
    ensures kept { Keeps routes.old routes.new }
{
    let mut added = 0.0;
    for m in (0..left.len()).rev() {
        added = move_next(routes, &mut left[..m + 1], added, saved, given)?;
    }
    Some(added)
}
