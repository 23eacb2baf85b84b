// What each public call is refused with: the first row that applies.
ghost use Rattle.std.specs.Prelude.{◌≡◌};
ghost use Rattle.refusal_rows.specs.models.Lent.{of_problem};
ghost use Rattle.refusal_rows.specs.plan.Plan.{Slices};
ghost use Rattle.refusal_rows.specs.entry.Table.{refusal};
ghost use Rattle.refusal_rows.specs.entry.Given.{row_of, problem_inputs, route_inputs, schedule_inputs, eliminate_inputs, minimise_inputs};

use refusal_rows::{
    Problem, Refusal, VehicleBreak, Work, break_passes, minimise_rows, plan_rows, problem_rows,
    route_rows, work_rows,
};

// A call that is given the problem alone: rows 1 to 4.
pub fn problem_refusal(problem: &Problem) -> Result<(), Refusal>
    ensures { row_of result ≡ refusal (problem_inputs (of_problem problem.now)) }
{
    problem_rows(true, problem)
}

// A call that is given a route beside the problem: rows 1 to 4, then 6.
pub fn route_refusal(route: &[u16], problem: &Problem) -> Result<(), Refusal>
    ensures { row_of result ≡ refusal (route_inputs (of_problem problem.now) route.now) }
{
    problem_rows(true, problem)?;
    route_rows(route, problem)
}

// `schedule`, which is given a route and a break: the floats of the break belong to row 2.
pub fn schedule_refusal(route: &[u16], rest: VehicleBreak, problem: &Problem) -> Result<(), Refusal>
    ensures { row_of result ≡ refusal (schedule_inputs (of_problem problem.now) rest route.now) }
{
    let beside = break_passes(rest);
    problem_rows(beside, problem)?;
    route_rows(route, problem)
}

// eliminate: rows 1 to 6 and 9.
pub fn eliminate_refusal(
    lengths: &[u16],
    stops: &[u16],
    problem: &Problem,
    work: Work,
) -> Result<(), Refusal>
    ensures { row_of result ≡ refusal
        (eliminate_inputs (of_problem problem.now) (record { lengths = lengths.entry.now; stops = stops.now }) work) }
{
    problem_rows(true, problem)?;
    plan_rows(lengths, stops, problem)?;
    work_rows(work)
}

// minimise: rows 1 to 9.
pub fn minimise_refusal(
    lengths: &[u16],
    stops: &[u16],
    problem: &Problem,
    tape: &[u64],
    limit: u64,
    work: Work,
) -> Result<(), Refusal>
    ensures { row_of result ≡ refusal
        (minimise_inputs (of_problem problem.now) (record { lengths = lengths.entry.now; stops = stops.now }) tape.now limit work) }
{
    problem_rows(true, problem)?;
    plan_rows(lengths, stops, problem)?;
    minimise_rows(tape, limit, work)
}
