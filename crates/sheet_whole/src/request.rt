// The last three sections: what is asked of the problem.
ghost use Rattle.std.specs.Prelude.{◌≤◌, length, IfOk};
ghost use Rattle.sheet_draws.specs.sheet_text.Told.{Reads, told_as};
ghost use Rattle.sheet_whole.specs.Request.{request as Request·request, held};

use crate::parts::Request;
use sheet_draws::draws;
use sheet_problem::{Refusal, Text};
use sheet_routes::routes::routes;
use sheet_run::last_run;

// The sections of the request, into the slices.
pub fn request(
    lengths: &mut [u16],
    stops: &mut [u16],
    tape: &mut [u64],
    text: &mut Text<'_>,
) -> Result<Request, Refusal>
    requires { (64 ≤ length lengths.old) × (64 ≤ length stops.old) × (1024 ≤ length tape.old) }
    ensures read { Reads Request·request text.old (told_as (held lengths.new stops.new tape.new) result) text.new }
    ensures request_within { IfOk result (λ q. (q.draws ≤ 1024) × (q.plan.given ≤ 64) × (q.plan.used ≤ 64)) }
{
    let draws = draws(tape, text)?;
    let plan = routes(lengths, stops, text)?;
    let run = last_run(text)?;
    Ok(Request { draws, plan, run })
}
