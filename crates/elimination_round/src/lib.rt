// One attempt after the other in a round of elimination: the routes by length, stable, until one is accepted or none is left
// (local_search/route_elimination.rs, `for r in order`).
#![tactic(auto)]

ghost use Rattle.std.specs.Prelude.{◌≡◌};
ghost use Rattle.elimination_attempt.specs.plan.Plan.{split};
ghost use Rattle.elimination_attempt.specs.plan.Given.{plan_of, Keeps};
ghost use Rattle.elimination_attempt.specs.route_order.Order.{following};
ghost use Rattle.elimination_attempt.specs.local_search.Rounds.{try_each};
ghost use Rattle.elimination_attempt.specs.local_search.Search.{but_last, tried_next, NextLeaves, uncounted};
ghost use Rattle.elimination_attempt.specs.elimination_moves.Eliminate.{attempt};
ghost use Rattle.elimination_attempt.specs.emptied_route.Attempts.{of_elimination};
ghost use Rattle.elimination_round.specs.Eliminating.{Eliminating};

use elimination_attempt::routes::Routes;
use elimination_attempt::{LocalSearchNext as Next, pick_after, without_route};

// Of the crates below, passed on to those above.
pub use elimination_attempt::{
    Counts, Demand, Elimination, Instance, LocalSearchNext, Pick, Problem, Reduction, Vehicle,
    drop_empty, route_cost_gain_floor, routes,
};

// The attempt at the route that comes next after the last pick. It counts nothing.
pub fn try_next(
    routes: &mut Routes,
    work: &mut [u16],
    last: Option<Pick>,
    given: &Elimination,
) -> Next
    requires eliminating { Eliminating (of_elimination given.now) routes.old work.old }
    ensures round { tried_next (attempt (of_elimination given.now)) (plan_of routes.old) routes.old.lengths.now uncounted result
        (split (but_last routes.new.lengths.now) routes.new.stops.now)
        ≡ try_each (attempt (of_elimination given.now)) (plan_of routes.old) (following routes.old.lengths.now last) uncounted }
    ensures held { NextLeaves 0 (of_elimination given.now).roads.size routes.old.lengths.now routes.old.stops.now last uncounted result
        routes.new.lengths.now routes.new.stops.now }
    ensures kept { Keeps routes.old routes.new }
{
    let Some(pick) = pick_after(routes, last) else {
        return Next::End;
    };
    let gained = without_route(routes, work, pick.route, given);
    if gained {
        return Next::Accepted(Counts::default());
    }
    Next::Kept(pick, Counts::default())
}
