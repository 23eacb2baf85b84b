// The search of route minimisation: rounds of attempts until a round accepts none (local_search/route_minimization.rs, `'search: loop`).
#![tactic(auto)]

ghost use Rattle.std.specs.Prelude.{◌≡◌, ◌+◌, ◌*◌, ◌<◌, ◌≤◌, length};
ghost use Rattle.minimization_round.specs.plan.Plan.{split};
ghost use Rattle.minimization_round.specs.route_order.Order.{following};
ghost use Rattle.minimization_round.specs.route_cost.Route.{cost};
ghost use Rattle.minimization_round.specs.local_search.Rounds.{reduce, try_each};
ghost use Rattle.minimization_round.specs.local_search.Search.{Answers, but_last, tried_next, NextLeaves};
ghost use Rattle.minimization_round.specs.pool_cost.Attempt.{attempt};
ghost use Rattle.minimization_round.specs.ejection_pool.Running.{allowed, of_minimisation};
ghost use Rattle.minimization_search.specs.Minimizing.{Searching};

use minimization_round::routes::Routes;
use minimization_round::{LocalSearchNext as Next, Pick, begin, try_next};

// Of the crates below, passed on to those above.
pub use minimization_round::{
    Allowance, Bench, Counts, Customers, DistanceMatrix, Minimisation, Problem, Reduction, Times,
    Vehicle, rounds,
};

// The next attempt of a round, on the routes that are left.
fn next_attempt(
    lengths: &mut [u16],
    stops: &mut [u16],
    bench: &mut Bench,
    last: Option<Pick>,
    before: f64,
    counted: Counts,
    given: &Minimisation,
) -> Next
    requires searching { Searching (of_minimisation given.now) given.now.allowance.limit lengths.old stops.old }
    requires before_value { before ≡ cost (of_minimisation given.now) (split lengths.old stops.old) }
    requires drawn { counted.draws ≤ 500 * counted.steps }
    requires countable { counted.draws + 500 * given.now.allowance.limit < 9_000_000_000_000_000_000 }
    ensures round { tried_next (attempt (allowed given.now.allowance) (of_minimisation given.now)) (split lengths.old stops.old) lengths.old counted
        result (split (but_last lengths.new) stops.new) ≡ try_each (attempt (allowed given.now.allowance) (of_minimisation given.now))
        (split lengths.old stops.old) (following lengths.old last) counted }
    ensures held { NextLeaves given.now.allowance.limit given.now.instance.now.fleet.net.roads.size lengths.old stops.old last counted result lengths.new stops.new }
{
    let mut routes = Routes { lengths, stops };
    try_next(&mut routes, bench, last, before, counted, given)
}

// Rounds of attempts, begun again from the shortest route as soon as one is accepted.
pub fn search(
    lengths: &mut [u16],
    stops: &mut [u16],
    bench: &mut Bench,
    given: &Minimisation,
) -> Reduction
    requires { Searching (of_minimisation given.now) given.now.allowance.limit lengths.old stops.old }
    ensures { Answers (reduce (attempt (allowed given.now.allowance) (of_minimisation given.now)) (split lengths.old stops.old)) (length lengths.old)
        result.routes result.counts lengths.new stops.new }
{
    let fleet = &given.instance.fleet;
    let mut counts = Counts::default();
    'search: loop {
        let round = begin(lengths, stops, fleet.vehicle, &fleet.net.roads);
        let count = round.count;
        let mut last: Option<Pick> = None;
        loop {
            let next = next_attempt(
                &mut lengths[..count],
                stops,
                bench,
                last,
                round.before,
                counts,
                given,
            );
            match next {
                Next::End => {
                    return Reduction {
                        routes: count,
                        counts,
                    };
                }
                Next::Kept(pick, tried) => {
                    last = Some(pick);
                    counts = tried;
                }
                Next::Accepted(tried) => {
                    counts = tried;
                    continue 'search;
                }
            }
        }
    }
}
