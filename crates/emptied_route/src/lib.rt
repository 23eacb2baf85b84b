// A route of the plan goes and its stops are moved into the others, where that gains (local_search/route_elimination.rs, the body of `for r in order`).
#![tactic(auto)]

ghost use Rattle.std.specs.Prelude.{◌≡◌, None, true, ◌+◌, ◌<◌, ◌≤◌, length, get_or};
ghost use Rattle.route_removal.specs.laws.All.{All};
ghost use Rattle.route_removal.specs.plan.Plan.{Lent, split, route, total};
ghost use Rattle.route_removal.specs.plan.Given.{plan_of, Keeps};
ghost use Rattle.moved_stops.specs.models.Problem.{Stops};
ghost use Rattle.moved_stops.specs.local_search.Options.{then_some};
ghost use Rattle.moved_stops.specs.elimination_moves.Eliminate.{move_all};
ghost use Rattle.moved_stops.specs.elimination_moves.Largest.{in_order};
ghost use Rattle.moved_stops.specs.stop_moves.Moves.{held_by};
ghost use Rattle.emptied_route.specs.Attempts.{of_elimination, Attempted, emptied, fewer, Accepted};
ghost use Rattle.moved_stops.specs.evaluation.Given.{of_instance};

pub mod elimination;

pub use elimination::Elimination;
use moved_stops::move_all;
use route_removal::routes::Routes;
use route_removal::{copy_cells, erase_route};

// Of the crates below, passed on to those above.
pub use moved_stops::{
    Counts, Demand, Instance, LocalSearchNext, Pick, Problem, Reduction, Vehicle, is_finite,
    pick_after, route_cost_gain_floor, worth,
};
pub use route_removal::routes;

// The stops of route r become the first of the cells. Returns these cells.
fn keep_route<'a>(cells: &'a mut [u16], routes: &Routes, r: usize) -> &'a mut [u16]
    requires there { r < length routes.now.lengths.now }
    requires room { get_or routes.now.lengths.now r 0 ≤ length cells.old }
    ensures { result.now ≡ route r (plan_of routes.now) }
{
    let route = routes.route(r);
    let left = &mut cells[..route.len()];
    copy_cells(left, route);
    left
}

// The stops that are left go to their places in the routes.
fn move_into(
    lengths: &mut [u16],
    stops: &mut [u16],
    left: &mut [u16],
    saved: f64,
    given: &Instance,
) -> Option<f64>
    requires lent { Lent lengths.old stops.old }
    requires routes { All (Stops given.now.fleet.net.roads.size) (split lengths.old stops.old) }
    requires few { total lengths.old + length left.old ≤ 256 }
    requires free { total lengths.old + length left.old ≤ length stops.old }
    requires places { Stops given.now.fleet.net.roads.size left.old }
    ensures moved { held_by result (split lengths.new stops.new) ≡ move_all (of_instance given.now) saved
        (in_order given.now.demand.cells.now (length left.old) left.old) (split lengths.old stops.old) }
    ensures sum { (result ≡ None → ⊥) → total lengths.new ≡ total lengths.old + length left.old }
    ensures lent { Lent lengths.new stops.new }
{
    let mut others = Routes { lengths, stops };
    move_all(&mut others, left, saved, given)
}

// Route r goes and its stops find other places, where that gains more than the floor: else what is left is no plan to go on with.
pub fn empty_route(routes: &mut Routes, r: usize, saved: f64, given: &Elimination) -> bool
    requires { Attempted (of_elimination given.now) routes.old r }
    ensures plan { then_some result (split (fewer routes.old.lengths.now routes.new.lengths.now) routes.new.stops.now)
        ≡ emptied (of_elimination given.now) saved (plan_of routes.old) r }
    ensures accepted { result ≡ true → Accepted routes.old.lengths.now routes.new.lengths.now }
    ensures kept { Keeps routes.old routes.new }
{
    let mut cells = [0u16; 256];
    let left = keep_route(&mut cells, routes, r);
    erase_route(routes, r);
    let last = routes.lengths.len() - 1;
    let sum = move_into(
        &mut routes.lengths[..last],
        routes.stops,
        left,
        saved,
        given.instance,
    );
    let Some(added) = sum else {
        return false;
    };
    added < saved - given.floor
}
