// One call of a list, as six words say, run on the plan and recorded: its answer and both slices after it. What the words say is in call_words,
// specs/Words.antt; what is recorded, in specs/Recording.antt.
#![tactic(auto)]

ghost use Rattle.std.specs.Prelude.{◌≡◌};
ghost use Rattle.call_history.specs.models.Lent.{of_problem};
ghost use Rattle.call_history.specs.call_words.Lent.{of_buffers, Keeps};
ghost use Rattle.recorded_call.specs.Recording.{Next, Recorded};

use call_history::{record_answer, record_slices};
use called::run_call;

// Of the crates below, passed on to those above.
pub use call_history::{Buffers, Problem, Vehicle, Words, well_formed};
pub use called::{Allowance, Customers, DistanceMatrix, eliminate, minimise};

// Call i, as its words say, run with the first of the tapes and recorded. The answer is the tapes that are left.
pub fn run_next<'a>(
    b: &mut Buffers,
    i: usize,
    w: Words,
    tapes: &'a [u64],
    problem: &Problem,
) -> &'a [u64]
    requires { Next i w tapes.now (of_buffers b.old) }
    ensures recorded { Recorded i w (of_problem problem.now) tapes.now result.now (of_buffers b.old) (of_buffers b.new) }
    ensures kept { Keeps b.old b.new }
{
    let (tape, rest) = tapes.split_at(w.tape);
    let lengths = &mut *b.lengths;
    let stops = &mut *b.stops;
    let answer = run_call(lengths, stops, b.work, b.cells, tape, w, problem);
    record_answer(b.answers, i, answer);
    record_slices(b.history, i, lengths, stops);
    rest
}
