// The public call minimise: it is refused by the table and changes nothing, or answers.
#![tactic(auto)]

ghost use Rattle.std.specs.Prelude.{◌≡◌, length};
ghost use Rattle.route_minimization.specs.models.Lent.{of_problem};
ghost use Rattle.route_minimization.specs.ejection_pool.Running.{allowed};
ghost use Rattle.planner.specs.Calls.{public_minimise};
ghost use Rattle.planner.specs.Told.{reply_of, slices_of, work_of, FreeIfAnswered};

use planner::instance;
use refusals::Work;
use refusals::calls::minimise_refusal;
use route_minimization::{Bench, Minimisation, Times, minimize_routes};

// Of the crates below, passed on to those above.
pub use planner::{Reduction, Refusal};
pub use route_minimization::{Allowance, Customers, DistanceMatrix, Problem, Vehicle};

// Fewer routes by an ejection pool, with at most as many steps in an attempt as are allowed, draws from the tape, and a clock that stops at the asking after
// the first `clock`.
pub fn minimise(
    lengths: &mut [u16],
    stops: &mut [u16],
    work: &mut [u16],
    cells: &mut [f64],
    allowance: Allowance,
    problem: &Problem,
) -> Result<Reduction, Refusal>
    ensures reply { reply_of result lengths.new stops.new ≡ public_minimise (of_problem problem.now) (slices_of lengths.old stops.old)
        (allowed allowance.entry) (work_of (length work.old) (length cells.old)) }
    ensures work { FreeIfAnswered result work.old work.new }
    ensures cells { FreeIfAnswered result cells.old cells.new }
{
    minimise_refusal(
        lengths,
        stops,
        problem,
        allowance.tape,
        allowance.limit,
        Work::of(work, cells),
    )?; // before the first draw
    let (departures, latest) = cells.split_at_mut(256);
    let times = Times { departures, latest };
    let mut bench = Bench { work, times };
    let made = instance(problem);
    let given = Minimisation {
        instance: &made,
        allowance,
    };
    let done = minimize_routes(lengths, stops, &mut bench, &given);
    Ok(done)
}
