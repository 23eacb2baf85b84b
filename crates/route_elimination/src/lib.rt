// Route elimination: a route is emptied by inserting its stops into the others (local_search/route_elimination.rs).
// The definitions and their laws are in `elimination_moves`.
#![tactic(auto)]

ghost use Rattle.std.specs.Prelude.{◌≡◌, ◌≤◌, length};
ghost use Rattle.elimination_round.specs.plan.Plan.{split, total};
ghost use Rattle.elimination_round.specs.local_search.Planned.{Planned};
ghost use Rattle.elimination_round.specs.route_order.Order.{following};
ghost use Rattle.elimination_round.specs.local_search.Rounds.{try_each};
ghost use Rattle.elimination_round.specs.local_search.Search.{Answers, but_last, tried_next, NextLeaves, uncounted, left_with};
ghost use Rattle.elimination_round.specs.elimination_moves.Eliminate.{attempt, eliminate_routes};
ghost use Rattle.elimination_round.specs.emptied_route.Attempts.{of_elimination};
ghost use Rattle.elimination_round.specs.evaluation.Given.{of_instance};

use elimination_round::routes::Routes;
use elimination_round::{
    Elimination, Instance, LocalSearchNext as Next, Pick, drop_empty,
    route_cost_gain_floor as gain_floor, try_next,
};

// Of the crates below, passed on to those above.
pub use elimination_round::{Counts, Problem, Reduction, Vehicle};

// The next attempt of a round, on the routes that are left.
fn next_attempt(
    lengths: &mut [u16],
    stops: &mut [u16],
    work: &mut [u16],
    last: Option<Pick>,
    given: &Elimination,
) -> Next
    requires whole { total lengths.old ≡ length stops.old }
    requires few { length stops.old ≤ 255 }
    requires routes_few { length lengths.old ≤ 256 }
    requires planned { Planned (of_elimination given.now).roads.size (split lengths.old stops.old) }
    requires work_room { 511 ≤ length work.old }
    ensures round { tried_next (attempt (of_elimination given.now)) (split lengths.old stops.old) lengths.old uncounted result
        (split (but_last lengths.new) stops.new)
        ≡ try_each (attempt (of_elimination given.now)) (split lengths.old stops.old) (following lengths.old last) uncounted }
    ensures held { NextLeaves 0 (of_elimination given.now).roads.size lengths.old stops.old last uncounted result lengths.new stops.new }
{
    let mut routes = Routes { lengths, stops };
    try_next(&mut routes, work, last, given)
}

// `eliminate_routes`: rounds of attempts, begun again from the shortest route as soon as one is accepted. How many routes are left.
pub fn eliminate_routes(
    lengths: &mut [u16],
    stops: &mut [u16],
    work: &mut [u16],
    given: &Instance,
) -> usize
    requires whole { total lengths.old ≡ length stops.old }
    requires few { length stops.old ≤ 255 }
    requires routes_few { length lengths.old ≤ 256 }
    requires planned { Planned given.now.fleet.net.roads.size (split lengths.old stops.old) }
    requires work_room { 511 ≤ length work.old }
    ensures { Answers (left_with (eliminate_routes (of_instance given.now) (split lengths.old stops.old))) (length lengths.old) result uncounted
        lengths.new stops.new }
{
    let elimination = Elimination {
        instance: given,
        floor: gain_floor(given.fleet.net.roads.distances()),
    };
    'search: loop {
        let count = drop_empty(lengths);
        let mut last: Option<Pick> = None;
        loop {
            let next = next_attempt(&mut lengths[..count], stops, work, last, &elimination);
            match next {
                Next::End => {
                    return count;
                }
                Next::Kept(pick, _) => {
                    last = Some(pick);
                }
                Next::Accepted(_) => {
                    continue 'search;
                }
            }
        }
    }
}
