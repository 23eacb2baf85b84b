// The public call eliminate: it is refused by the table and changes nothing, or answers.
#![tactic(auto)]

ghost use Rattle.std.specs.Prelude.{◌≡◌, length};
ghost use Rattle.route_elimination.specs.models.Lent.{of_problem};
ghost use Rattle.planner.specs.Calls.{public_eliminate};
ghost use Rattle.planner.specs.Told.{reply_of, slices_of, work_of, FreeIfAnswered};

use planner::instance;
use refusals::Work;
use refusals::calls::eliminate_refusal;
use route_elimination::eliminate_routes;

// Of the crates below, passed on to those above.
pub use planner::{Reduction, Refusal};
pub use refusals::{Customers, DistanceMatrix};
pub use route_elimination::{Counts, Problem, Vehicle};

// Fewer routes where the others take a route's stops for less than it costs. The f64 work cells are counted and not touched.
pub fn eliminate(
    lengths: &mut [u16],
    stops: &mut [u16],
    work: &mut [u16],
    cells: &[f64],
    problem: &Problem,
) -> Result<Reduction, Refusal>
    ensures reply { reply_of result lengths.new stops.new ≡ public_eliminate (of_problem problem.now) (slices_of lengths.old stops.old)
        (work_of (length work.old) (length cells.now)) }
    ensures work { FreeIfAnswered result work.old work.new }
{
    eliminate_refusal(lengths, stops, problem, Work::of(work, cells))?; // before the first attempt
    let routes = eliminate_routes(lengths, stops, work, &instance(problem));
    Ok(Reduction {
        routes,
        counts: Counts::default(),
    })
}
