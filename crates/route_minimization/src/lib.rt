// Route minimisation with an ejection pool (local_search/route_minimization.rs, `minimize_routes`). Its definition and the theorems about it are in `minimization`.
#![tactic(auto)]

ghost use Rattle.std.specs.Prelude.{length};
ghost use Rattle.minimization_search.specs.plan.Plan.{split};
ghost use Rattle.minimization_search.specs.local_search.Search.{Answers};
ghost use Rattle.minimization_search.specs.minimization.Minimize.{minimize_routes};
ghost use Rattle.minimization_search.specs.ejection_pool.Running.{allowed, of_minimisation};
ghost use Rattle.minimization_search.specs.Minimizing.{Searching};

use minimization_search::{Counts, Reduction, search};

// Of the crates below, passed on to those above.
pub use minimization_search::{
    Allowance, Bench, Customers, DistanceMatrix, Minimisation, Problem, Times, Vehicle, rounds,
};

// `minimize_routes`: with a soft window the plan comes back as given, otherwise with as many routes fewer as the attempts find.
pub fn minimize_routes(
    lengths: &mut [u16],
    stops: &mut [u16],
    bench: &mut Bench,
    given: &Minimisation,
) -> Reduction
    requires { Searching (of_minimisation given.now) given.now.allowance.limit lengths.old stops.old }
    ensures { Answers (minimize_routes (allowed given.now.allowance) (of_minimisation given.now) (split lengths.old stops.old)) (length lengths.old)
        result.routes result.counts lengths.new stops.new }
{
    if given.instance.fleet.soft {
        return Reduction {
            routes: lengths.len(),
            counts: Counts::default(),
        };
    }
    search(lengths, stops, bench, given)
}
