// The evaluation of a route, written into the slices that C lends for it.
#![tactic(auto)]

ghost use Rattle.std.specs.Prelude.{◌≡◌, length};
ghost use Rattle.planner_questions.specs.planner.Told.{told};
ghost use Rattle.c_values.specs.Said.{values, says, put, eval_values};

use planner_questions::RouteEval;

// Of the crates below, passed on to those above.
pub use c_values::Shape;
pub use planner_questions::{Reduction, Refusal, TimeWindow};

// The evaluation of a route, or a refusal.
pub fn put_evaluated(
    out: &mut [f64],
    found: &mut [u64],
    a: Result<Option<RouteEval>, Refusal>,
) -> u8
    requires { (length out.old ≡ 5) × (length found.old ≡ 3) }
    ensures { says result out.new found.new ≡ put eval_values (values out.old found.old) (told a) }
{
    match a {
        Ok(Some(e)) => {
            let (stop, start) = e.rest.unwrap_or((0, 0.0));
            out.copy_from_slice(&[e.distance, e.duration, e.lateness, e.lateness_cost, start]);
            found.copy_from_slice(&[1, u64::from(e.rest.is_some()), stop as u64]);
            0
        }
        Ok(None) => {
            out.fill(0.0);
            found.fill(0);
            0
        }
        Err(refusal) => refusal.number(),
    }
}
