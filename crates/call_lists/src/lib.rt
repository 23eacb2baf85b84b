// A list of calls over one problem, as words that the caller lends say: minimise and eliminate run one after the other, and every answer and both
// slices after each call are recorded. What the words say is in call_words, specs/Words.antt; what is promised of a run, in specs/Lists.antt.
#![tactic(auto)]

ghost use Rattle.std.specs.Prelude.{◌≡◌, true};
ghost use Rattle.recorded_call.specs.models.Lent.{of_problem};
ghost use Rattle.recorded_call.specs.call_words.Words.{well_formed};
ghost use Rattle.recorded_call.specs.call_words.Lent.{of_buffers, Keeps};
ghost use Rattle.call_lists.specs.Lists.{AllRun, Leaves};

use recorded_call::{Words, run_next, well_formed};

// Of the crates below, passed on to those above.
pub use recorded_call::{
    Allowance, Buffers, Customers, DistanceMatrix, Problem, eliminate, minimise,
};

// The words of a list are malformed.
#[derive(Clone, Copy, Debug, PartialEq, Eq)]
pub struct Malformed;

// Whether the words are calls, and the numbers that they name fit the buffers.
fn fits(b: &Buffers, calls: &[u64], tapes: &[u64]) -> bool
    ensures { result ≡ well_formed calls.now tapes.now (of_buffers b.now) }
{
    well_formed(
        b.lengths, b.stops, b.work, b.cells, b.answers, b.history, calls, tapes,
    )
}

// Every call in turn, each on both slices as the last one left them; how many there were.
fn run_all(b: &mut Buffers, calls: &[u64], tapes: &[u64], problem: &Problem) -> usize
    requires { well_formed calls.now tapes.now (of_buffers b.old) ≡ true }
    ensures ran { AllRun result (of_problem problem.now) calls.now tapes.now (of_buffers b.old) (of_buffers b.new) }
    ensures kept { Keeps b.old b.new }
{
    let (words, _) = calls.as_chunks::<6>();
    let mut left = tapes;
    for (i, call) in words.iter().enumerate() {
        left = run_next(b, i, Words::of(call), left, problem);
    }
    words.len()
}

// The calls that `calls` and `tapes` ask for, in order, over one problem and the plan in both slices. A call has six words (`Words`) of `calls` and as
// many words of `tapes` as it says; it is lent the first cells of `work` and `cells`. Its answer goes into four words of `answers`: the number of the
// refusal or 0, routes, steps, draws; both slices after it go into `history`. All lengths must fit; where they do not, nothing is changed. The result is
// how many calls were run.
pub fn run_calls(
    b: &mut Buffers,
    calls: &[u64],
    tapes: &[u64],
    problem: &Problem,
) -> Result<usize, Malformed>
    ensures leaves { Leaves result (of_problem problem.now) calls.now tapes.now (of_buffers b.old) (of_buffers b.new) }
    ensures kept { Keeps b.old b.new }
{
    if !fits(b, calls, tapes) {
        return Err(Malformed);
    }
    Ok(run_all(b, calls, tapes, problem))
}
