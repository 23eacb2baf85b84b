// The record of a list of calls: the answer of each in four words, and both slices after it. What is recorded is in call_words, specs/Words.antt.
#![tactic(auto)]

ghost use Rattle.std.specs.Prelude.{◌≡◌, ◌++◌, ◌+◌, ◌*◌, ◌≤◌, length};
ghost use Rattle.call_words.specs.planner.Told.{told};
ghost use Rattle.call_words.specs.Words.{answer_words, put};

use call_words::{Reduction, Refusal, copy_cells};

// Of the crates below, passed on to those above.
pub use call_words::{Buffers, Problem, Vehicle, Words, well_formed};

// The answer of call i, in four words.
pub fn record_answer(answers: &mut [u64], i: usize, a: Result<Reduction, Refusal>)
    requires { i * 4 + 4 ≤ length answers.old }
    ensures { answers.new ≡ put answers.old (i * 4) (answer_words (told a)) }
{
    let words = match a {
        Ok(done) => [0, done.routes as u64, done.counts.steps, done.counts.draws],
        Err(refusal) => [u64::from(refusal.number()), 0, 0, 0],
    };
    answers[i * 4..i * 4 + 4].copy_from_slice(&words);
}

// Both slices after call i.
pub fn record_slices(history: &mut [u16], i: usize, lengths: &[u16], stops: &[u16])
    requires { i * (length lengths.now + length stops.now) + (length lengths.now + length stops.now) ≤ length history.old }
    ensures { history.new ≡ put history.old (i * (length lengths.now + length stops.now)) (lengths.now ++ stops.now) }
{
    let at = i * (lengths.len() + stops.len());
    let behind = at + lengths.len();
    copy_cells(&mut history[at..behind], lengths);
    copy_cells(&mut history[behind..behind + stops.len()], stops);
}
