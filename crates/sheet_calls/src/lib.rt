// The two calls of a sheet, minimise and then eliminate, and the listing of the plan that they leave.
#![tactic(auto)]

ghost use Rattle.std.specs.Prelude.{◌≡◌, ◌≤◌, length};
ghost use Rattle.minimise_call.specs.models.Problem.{problem};
ghost use Rattle.minimise_call.specs.planner.Told.{slices_of};
ghost use Rattle.sheet_elimination.specs.listing.Written.{Written};
ghost use Rattle.sheet_elimination.specs.sheet_laws.Short.{Short};
ghost use Rattle.sheet_elimination.specs.sheet_answers.Printed.{planned, sheet_of};
ghost use Rattle.minimise_call.specs.models.Lent.{of_problem};

use minimise_call::minimise;
use sheet_elimination::list_eliminated;

// Of the crates below, passed on to those above.
pub use minimise_call::{Allowance, Customers, DistanceMatrix, Problem};
pub use sheet_elimination::{Page, Refusal, put_refusal, put_refused};

// Minimises, then eliminates.
pub fn list_planned(
    out: &mut [u8],
    lengths: &mut [u16],
    stops: &mut [u16],
    work: &mut [u16],
    cells: &mut [f64],
    allowance: Allowance,
    problem: &Problem,
) -> usize
    requires in_bounds { (6000 ≤ length out.old) × (length lengths.old ≤ 64) × (length stops.old ≤ 64) × (length work.old ≡ 8192)
        × (length cells.old ≡ 2048) }
    requires short { Short problem.now.roads.now.size problem.now.roads.now.distances }
    ensures { Written out.old 0 (planned (sheet_of (of_problem problem.now) (slices_of lengths.old stops.old) allowance.entry.tape.now allowance.entry.limit allowance.entry.clock)) out.new result }
{
    let given = lengths.len() as u64;
    let m = minimise(lengths, stops, work, cells, allowance, problem);
    match m {
        Ok(d) => {
            let counts = d.counts;
            list_eliminated(out, lengths, stops, work, cells, counts, given, problem)
        }
        Err(refusal) => put_refused(out, refusal),
    }
}
