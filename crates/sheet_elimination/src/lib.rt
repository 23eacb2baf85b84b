// The second call of a sheet, eliminate, and the listing of the plan that it leaves.
#![tactic(auto)]

ghost use Rattle.std.specs.Prelude.{◌≡◌, ◌≤◌, length};
ghost use Rattle.eliminate_call.specs.models.Problem.{problem};
ghost use Rattle.eliminate_call.specs.planner.Told.{slices_of};
ghost use Rattle.listing_whole.specs.listing.Written.{Written};
ghost use Rattle.sheet_answers.specs.sheet_laws.Short.{Short};
ghost use Rattle.sheet_answers.specs.Printed.{eliminated};
ghost use Rattle.eliminate_call.specs.models.Lent.{of_problem};

use eliminate_call::{Counts, Problem, eliminate};
use listing_whole::each::EachRoute;
use listing_whole::put_listing;

// Of the crates below, passed on to those above.
pub use listing_whole::{Page, Refusal, put_refusal, put_refused};

// Eliminates and lists what is left, with the counts of the call before.
pub fn list_eliminated(
    out: &mut [u8],
    lengths: &mut [u16],
    stops: &mut [u16],
    work: &mut [u16],
    cells: &[f64],
    counts: Counts,
    given: u64,
    problem: &Problem,
) -> usize
    requires in_bounds { (6000 ≤ length out.old) × (length lengths.old ≤ 64) × (length stops.old ≤ 64) × (length work.old ≡ 8192)
        × (length cells.now ≡ 2048) }
    requires short { Short problem.now.roads.now.size problem.now.roads.now.distances }
    ensures { Written out.old 0 (eliminated (of_problem problem.now) (slices_of lengths.old stops.old) counts given) out.new result }
{
    let e = eliminate(lengths, stops, work, cells, problem);
    match e {
        Ok(d) => {
            let routes = EachRoute {
                lengths: &lengths[..d.routes],
                stops,
            };
            put_listing(out, routes, counts, given, problem)
        }
        Err(refusal) => put_refused(out, refusal),
    }
}
