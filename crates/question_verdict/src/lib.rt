// The stored questions: what each kind asks, and whether the answer is the stored one. Those about a route are in route_asked.
#![tactic(auto)]

ghost use Rattle.std.specs.Prelude.{◌≡◌};
ghost use Rattle.problem_questions.specs.models.Lent.{of_problem};
ghost use Rattle.same_answers.specs.stored_answers.Answers.{same_stored};
ghost use Rattle.question_verdict.specs.Asked.{question_of, question};

use route_asked::{RouteQuestion, ask_of_route};
use same_answers::{of_number, of_window, same_stored};

// Of the crates below, passed on to those above.
pub use problem_questions::{Customers, DistanceMatrix, Problem, Vehicle, VehicleBreak};
pub use same_answers::{Kind, Stored};

// A question: about a route, about the problem, or what a window of two floats is.
#[derive(Clone, Copy)]
pub enum Question<'a> {
    OfRoute(&'a [u16], RouteQuestion),
    LatenessBound,
    GainFloor,
    TimeWindowNew(f64, f64),
}

impl<'a> Question<'a> {
    // What a kind asks, of what is stored beside it: a route, and three floats, which are the break of `schedule`, or the window of `time_window_new` and one
    // more. Nothing where the kind is no question.
    pub fn of(kind: Kind, route: &'a [u16], x: f64, y: f64, z: f64) -> Option<Question<'a>>
        ensures { result ≡ question_of kind route.entry x y z }
    {
        match kind {
            Kind::Minimise | Kind::Eliminate => None,
            Kind::RouteFeasible => Some(Question::OfRoute(route, RouteQuestion::RouteFeasible)),
            Kind::RouteEval => Some(Question::OfRoute(route, RouteQuestion::RouteEval)),
            Kind::EffectiveCost => Some(Question::OfRoute(route, RouteQuestion::EffectiveCost)),
            Kind::Schedule => {
                let rest = VehicleBreak::new(x, y, z);
                Some(Question::OfRoute(route, RouteQuestion::Schedule(rest)))
            }
            Kind::RouteDistance => Some(Question::OfRoute(route, RouteQuestion::RouteDistance)),
            Kind::LatenessBound => Some(Question::LatenessBound),
            Kind::GainFloor => Some(Question::GainFloor),
            Kind::TimeWindowNew => Some(Question::TimeWindowNew(x, y)),
        }
    }
}

// The answer to a question.
#[tactic(auto, unfolding(crate::specs::Asked::question))]
fn ask(asked: Question, problem: &Problem) -> Stored
    ensures { result ≡ question asked.entry (of_problem problem.now) }
{
    match asked {
        Question::OfRoute(route, of_route) => ask_of_route(of_route, route, problem),
        Question::LatenessBound => of_number(problem_questions::lateness_bound(problem)),
        Question::GainFloor => of_number(problem_questions::gain_floor(problem)),
        Question::TimeWindowNew(ready, due) => {
            of_window(problem_questions::time_window_new(ready, due))
        }
    }
}

// Whether the answer to a question is the stored one.
pub fn question_agrees(answer: Stored, asked: Question, problem: &Problem) -> bool
    ensures { result ≡ same_stored (question asked.entry (of_problem problem.now)) answer }
{
    let said = ask(asked, problem);
    same_stored(said, answer)
}
