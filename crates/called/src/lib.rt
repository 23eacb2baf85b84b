// The public calls that change a plan, minimise and eliminate, as one value, a `Change`; and one of a list, on the plan and with the tape and the work
// cells that its words say. What the words say is in call_words, specs/Words.antt.
#![tactic(auto)]

ghost use Rattle.std.specs.Prelude.{◌≡◌, length};
ghost use Rattle.minimise_call.specs.models.Lent.{of_problem};
ghost use Rattle.minimise_call.specs.planner.Run.{call};
ghost use Rattle.minimise_call.specs.planner.Told.{reply_of, slices_of, work_of};
ghost use Rattle.call_words.specs.Words.{asks, call_of};
ghost use Rattle.called.specs.Lent.{Lent};
ghost use Rattle.called.specs.Changes.{change_of, change_asked};

use call_words::{Kind, Words};
use minimise_call::{Reduction, Refusal};

// Of the crates below, passed on to those above.
pub use eliminate_call::eliminate;
pub use minimise_call::{Allowance, Customers, DistanceMatrix, Problem, minimise};

// A call that changes a plan: minimise with what it may use, or eliminate.
#[derive(Clone, Copy)]
pub enum Change<'a> {
    Minimise(Allowance<'a>),
    Eliminate,
}

// The call on a plan, lent these work cells.
pub fn changed(
    change: Change,
    lengths: &mut [u16],
    stops: &mut [u16],
    work: &mut [u16],
    cells: &mut [f64],
    problem: &Problem,
) -> Result<Reduction, Refusal>
    ensures { reply_of result lengths.new stops.new ≡ call (of_problem problem.now) (slices_of lengths.old stops.old)
        (change_of change.entry (work_of (length work.old) (length cells.old))) }
{
    match change {
        Change::Minimise(allowance) => minimise(lengths, stops, work, cells, allowance, problem),
        Change::Eliminate => eliminate(lengths, stops, work, cells, problem),
    }
}

// What the words of a call ask for, with its tape.
fn change_asked(w: Words, tape: &[u64]) -> Change
    ensures { result ≡ change_asked (asks w) w tape.entry }
{
    match w.asks() {
        Some(Kind::Minimise) => Change::Minimise(Allowance {
            tape,
            limit: w.limit,
            clock: w.clock,
        }),
        _ => Change::Eliminate,
    }
}

// The call that the words are, its tape the first of these words.
pub fn run_call(
    lengths: &mut [u16],
    stops: &mut [u16],
    work: &mut [u16],
    cells: &mut [f64],
    tape: &[u64],
    w: Words,
    problem: &Problem,
) -> Result<Reduction, Refusal>
    requires { Lent w (length tape.now) (length work.old) (length cells.old) }
    ensures { reply_of result lengths.new stops.new ≡ call (of_problem problem.now) (slices_of lengths.old stops.old)
        (call_of w tape.now) }
{
    let change = change_asked(w, &tape[..w.tape]);
    let there = w.work;
    changed(
        change,
        lengths,
        stops,
        &mut work[..there.u16_cells],
        &mut cells[..there.f64_cells],
        problem,
    )
}
