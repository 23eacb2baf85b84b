// Answers as they are stored. Whether two are the same is told in same_answers.
#![tactic(auto)]

ghost use Rattle.std.specs.Prelude.{◌≡◌};
ghost use Rattle.planner_questions.specs.planner.Told.{told};
ghost use Rattle.planner_questions.specs.entry.refusal.Number.{number};
ghost use Rattle.stored_answers.specs.Answers.{stored, refusal_stored, checked_stored, number_stored, route_stored, eval_stored, evaluated_stored, window_stored, reply_stored};

use planner_questions::{Reduction, Refusal, RouteEval, TimeWindow};
use stored_values::bits_of;

// Of the crates below, passed on to those above.
pub use stored_values::Kind;

// An answer as seven numbers: a tag, which is 0 for a refusal, and what an answer with that tag holds, floats by their bits. What it lacks is 0.
#[derive(Clone, Copy, Debug, PartialEq, Eq)]
pub struct Stored {
    pub tag: u64,
    pub a: u64,
    pub b: u64,
    pub c: u64,
    pub d: u64,
    pub e: u64,
    pub f: u64,
}

// An answer of four numbers.
fn short(tag: u64, a: u64, b: u64, c: u64) -> Stored
    ensures { result ≡ stored tag a b c 0 0 0 }
{
    Stored {
        tag,
        a,
        b,
        c,
        d: 0,
        e: 0,
        f: 0,
    }
}

// A refusal is its number only.
impl From<Refusal> for Stored {
    ghost from_gives = { λ refusal answer. answer ≡ refusal_stored (number refusal) };

    fn from(refusal: Refusal) -> Stored {
        short(0, refusal.number() as u64, 0, 0)
    }
}

pub fn of_checked(answer: Result<bool, Refusal>) -> Stored
    ensures { result ≡ checked_stored (told answer) }
{
    answer.map_or_else(Stored::from, |passes| short(1, u64::from(passes), 0, 0))
}

pub fn of_number(answer: Result<f64, Refusal>) -> Stored
    ensures { result ≡ number_stored (told answer) }
{
    answer.map_or_else(Stored::from, |x| short(1, bits_of(x), 0, 0))
}

// An evaluation with a break or without.
fn of_route(worth: RouteEval) -> Stored
    ensures { result ≡ route_stored worth worth.rest }
{
    let (tag, stop, start) = match worth.rest {
        None => (2, 0, 0),
        Some((stop, start)) => (3, stop as u64, bits_of(start)),
    };
    Stored {
        tag,
        a: bits_of(worth.distance),
        b: bits_of(worth.duration),
        c: bits_of(worth.lateness),
        d: bits_of(worth.lateness_cost),
        e: stop,
        f: start,
    }
}

fn of_eval(eval: Option<RouteEval>) -> Stored
    ensures { result ≡ eval_stored eval }
{
    match eval {
        None => short(1, 0, 0, 0),
        Some(worth) => of_route(worth),
    }
}

pub fn of_evaluated(answer: Result<Option<RouteEval>, Refusal>) -> Stored
    ensures { result ≡ evaluated_stored (told answer) }
{
    answer.map_or_else(Stored::from, of_eval)
}

pub fn of_window(window: Option<TimeWindow>) -> Stored
    ensures { result ≡ window_stored window }
{
    match window {
        None => short(1, 0, 0, 0),
        Some(w) => short(2, bits_of(w.ready), bits_of(w.due), 0),
    }
}

pub fn of_replied(answer: Result<Reduction, Refusal>) -> Stored
    ensures { result ≡ reply_stored (told answer) }
{
    answer.map_or_else(Stored::from, |done| {
        short(1, done.routes as u64, done.counts.steps, done.counts.draws)
    })
}
