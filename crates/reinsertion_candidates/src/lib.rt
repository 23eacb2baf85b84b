// A stop that is to be moved, and the tests of a candidate for it (the body of `for c in moving` in local_search/route_elimination.rs). The definitions of the
// candidates and of the place among them, with their laws, are in specs/.
#![tactic(auto)]

ghost use Rattle.std.specs.Prelude.{◌≡◌, not, ◌&&◌, ◌||◌, [], ◌≤◌, length};
ghost use Rattle.reinsertion_worth.specs.floats.Binary64.{is_finite};
ghost use Rattle.reinsertion_candidates.specs.Place.{comes_first, settles};
ghost use Rattle.reinsertion_candidates.specs.Asked.{Looked};
ghost use Rattle.reinsertion_worth.specs.evaluation.Given.{of_fleet};

use reinsertion_worth::{total_less, trial_ok};

// Of the crates below, passed on to those above.
pub use reinsertion_worth::{
    Counts, Demand, Fleet, Insertion, Instance, LocalSearchNext, Pick, Problem, Reduction, Vehicle,
    current, cut, has_room, insertion_worth, is_finite, pick_after, route_cost_gain_floor, routes,
    worth,
};

// A stop c that is to be moved, what was added to the worth of the other routes so far, and what is saved.
#[derive(Clone, Copy)]
pub struct Move {
    pub c: usize,
    pub added: f64,
    pub saved: f64,
}

// Whether a cost makes a candidate: with a soft window it is a number.
fn counts(cost: f64, soft: bool) -> bool
    ensures { result ≡ (not soft || is_finite cost) }
{
    !soft || is_finite(cost)
}

// Whether a cost comes before that of the best so far. An equal one does not, so the first found among equals stays.
fn comes_first(cost: f64, best: Option<Insertion>) -> bool
    ensures { result ≡ comes_first cost best }
{
    best.is_none_or(|found| total_less(cost, found.cost))
}

// Whether a position makes a candidate that comes before the best so far.
pub fn leads(cost: f64, soft: bool, best: Option<Insertion>) -> bool
    ensures { result ≡ ((not soft || is_finite cost) && comes_first cost best) }
{
    counts(cost, soft) && comes_first(cost, best)
}

// Whether a candidate ends the search: it would cost as much as is saved, or the route with the stop put in passes the check.
pub fn settles(route: &[u16], pos: usize, cost: f64, stop: Move, fleet: &Fleet) -> bool
    requires { Looked (of_fleet fleet.now) stop route.now × (pos ≤ length route.now) }
    ensures { result ≡ settles (of_fleet fleet.now) stop.c stop.added stop.saved route.now pos cost }
{
    stop.added + cost >= stop.saved || trial_ok(route, pos, stop.c, fleet)
}
