// An attempt to empty a route into the others (local_search/route_minimization.rs, the body of the round in `minimize_routes`).
#![tactic(auto)]

ghost use Rattle.std.specs.Prelude.{◌≡◌, ◌<◌, ◌≤◌, length};
ghost use Rattle.plan_copy.specs.plan.Plan.{split};
ghost use Rattle.plan_copy.specs.plan.Given.{plan_of, Keeps};
ghost use Rattle.route_without.specs.route_cost.Route.{cost};
ghost use Rattle.route_without.specs.pool_cost.Attempt.{attempt};
ghost use Rattle.route_without.specs.ejection_pool.Running.{allowed, of_minimisation};
ghost use Rattle.route_without.specs.local_search.Search.{but_last};
ghost use Rattle.route_without.specs.pool_attempt.Judged.{tried};
ghost use Rattle.route_without.specs.Attempting.{Attempting};
ghost use Rattle.route_attempt.specs.Leaves.{Leaves};

use plan_copy::{keep, restore};
use route_without::routes::Routes;
use route_without::{Counts, try_without};

// Of the crates below, passed on to those above.
pub use plan_copy::drop_empty;
pub use route_without::{Minimisation, Times, routes};

// The work cells of a call: in the first 512 of `work` the plan stands while an attempt is made, in the others the attempt works.
#[derive(Drop)]
pub struct Bench<'a, 'b> {
    pub work: &'a mut [u16],
    pub times: Times<'b>,
    pub ghost room: { 767 ≤ length work.now },
}

// The attempt at route r of a plan that costs `before`. An error is a plan that is kept: both slices are as they were; the work cells hold them
// meanwhile. Either comes with the counts of the call so far.
pub fn attempt(
    routes: &mut Routes,
    bench: &mut Bench,
    r: usize,
    before: f64,
    counted: Counts,
    given: &Minimisation,
) -> Result<Counts, Counts>
    requires attempting { Attempting (of_minimisation given.now) given.now.allowance.limit routes.old counted }
    requires r_in_bounds { r < length routes.old.lengths.now }
    requires before_value { before ≡ cost (of_minimisation given.now) (plan_of routes.old) }
    requires few { length routes.old.lengths.now ≤ 256 }
    ensures plan { tried result (split (but_last routes.new.lengths.now) routes.new.stops.now) ≡ attempt (allowed given.now.allowance)
        (of_minimisation given.now) (plan_of routes.old) r counted }
    ensures held { Leaves result routes.old routes.new }
    ensures kept { Keeps routes.old routes.new }
{
    let work = &mut *bench.work;
    keep(work, routes);
    let tried = try_without(
        routes,
        &mut work[512..],
        &mut bench.times,
        r,
        before,
        counted,
        given,
    );
    if tried.is_err() {
        restore(routes.lengths, routes.stops, work);
    }
    tried
}
