// One stored call: read, asked, compared and counted. A call is its kind and
//   for minimise and eliminate: limit, clock, the numbers of u16 and f64 work cells, tape, answer, lengths and stops after it;
//   for a question: route, three floats, answer.
// A slice is its count and its cells, an answer is seven numbers. (eliminate has limit and clock 0 and no tape, a question without a route an empty one.)
#![tactic(auto)]

ghost use Rattle.std.specs.Prelude.{◌≡◌, MatchOption, length};
ghost use Rattle.tally.specs.Tally.{Noted};

use change_verdict::{Allowance, Change, change_agrees, change_asked};
use question_verdict::{Kind, Question, Stored, question_agrees};
use room::zeros;

// Of the crates below, passed on to those above.
pub use question_verdict::{Customers, DistanceMatrix, Problem, Vehicle, VehicleBreak};
pub use stored::Numbers;
pub use tally::{Tally, print_fault, print_misfit, print_too_long};

// Room for the stops of a question's route.
const ROUTE: usize = 32;

// Room for each of a plan's two slices.
pub const PLAN: usize = 264;

// Room for a tape.
const TAPE: usize = 64;

// Room for the u16 work cells.
const WORK: usize = 8704;

// Room for the f64 work cells.
const FLOAT_WORK: usize = 2560;

// The u16 work cells, all 0.
fn u16_cells() -> [u16; WORK]
    ensures { length result ≡ 8704 }
{
    zeros()
}

// The f64 work cells, all 0.
fn f64_cells() -> [f64; FLOAT_WORK]
    ensures { length result ≡ 2560 }
{
    zeros()
}

// The next answer.
fn answer_at(numbers: &mut Numbers) -> Option<Stored> {
    Some(Stored {
        tag: numbers.next()?,
        a: numbers.next()?,
        b: numbers.next()?,
        c: numbers.next()?,
        d: numbers.next()?,
        e: numbers.next()?,
        f: numbers.next()?,
    })
}

// A question: whether its answer is the stored one, or nothing where it is not of the form.
fn question_at(numbers: &mut Numbers, kind: Kind, problem: &Problem) -> Option<bool> {
    let mut route_room = [0u16; ROUTE];
    let route = numbers.fill(&mut route_room)?;
    let x = numbers.read()?;
    let y = numbers.read()?;
    let z = numbers.read()?;
    let answer = answer_at(numbers)?;
    let question = Question::of(kind, route, x, y, z)?;
    Some(question_agrees(answer, question, problem))
}

// minimise or eliminate, on a plan and with work cells: whether its answer and the plan after it are the stored ones, or nothing where it is not of the form.
fn change_at(
    numbers: &mut Numbers,
    change: Change,
    lengths: &mut [u16],
    stops: &mut [u16],
    work: &mut [u16],
    cells: &mut [f64],
    problem: &Problem,
) -> Option<bool> {
    let answer = answer_at(numbers)?;
    let mut lengths_room = [0u16; PLAN];
    let lengths_after = numbers.fill(&mut lengths_room)?;
    let mut stops_room = [0u16; PLAN];
    let stops_after = numbers.fill(&mut stops_room)?;
    let agrees = change_agrees(
        change,
        lengths,
        stops,
        answer,
        lengths_after,
        stops_after,
        work,
        cells,
        problem,
    );
    Some(agrees)
}

// minimise or eliminate with the work cells that it is given.
fn change_with_cells(
    numbers: &mut Numbers,
    kind: Kind,
    lengths: &mut [u16],
    stops: &mut [u16],
    problem: &Problem,
) -> Option<bool> {
    let limit = numbers.next()?;
    let clock = numbers.next()?;
    let small = numbers.at_most(WORK as u64)? as usize;
    let wide = numbers.at_most(FLOAT_WORK as u64)? as usize;
    let mut tape_room = [0u64; TAPE];
    let tape = numbers.fill(&mut tape_room)?;
    let change = change_asked(kind, Allowance { tape, limit, clock })?;
    let mut work = u16_cells();
    let mut cells = f64_cells();
    change_at(
        numbers,
        change,
        lengths,
        stops,
        &mut work[..small],
        &mut cells[..wide],
        problem,
    )
}

// One call. It is counted under its kind, or nothing is where it is not of the form.
pub fn call_at(
    numbers: &mut Numbers,
    lengths: &mut [u16],
    stops: &mut [u16],
    tally: &mut Tally,
    problem: &Problem,
) -> Option<()>
    ensures { MatchOption result (tally.new ≡ tally.old) (λ _. Noted tally.old tally.new) }
{
    let kind = Kind::of(numbers.next()?)?;
    let agrees = match kind {
        Kind::Minimise | Kind::Eliminate => {
            change_with_cells(numbers, kind, lengths, stops, problem)?
        }
        _ => question_at(numbers, kind, problem)?,
    };
    tally.note(kind, agrees);
    Some(())
}
