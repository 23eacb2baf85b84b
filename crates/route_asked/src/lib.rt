// The stored questions about a route: what each asks, and its answer as it would be stored.
#![tactic(auto)]

ghost use Rattle.std.specs.Prelude.{◌≡◌};
ghost use Rattle.route_asked.specs.RouteAsked.{route_question};
ghost use Rattle.worth_questions.specs.models.Lent.{of_problem};

use stored_answers::{Stored, of_checked, of_evaluated, of_number};
use worth_questions::{Problem, VehicleBreak};

// What is asked of a route.
#[derive(Clone, Copy)]
pub enum RouteQuestion {
    RouteFeasible,
    RouteEval,
    EffectiveCost,
    Schedule(VehicleBreak),
    RouteDistance,
}

// The answer to a question about a route.
#[tactic(auto, unfolding(crate::specs::RouteAsked::route_question))]
pub fn ask_of_route(question: RouteQuestion, route: &[u16], problem: &Problem) -> Stored
    ensures { result ≡ route_question question (of_problem problem.now) route.now }
{
    match question {
        RouteQuestion::RouteFeasible => of_checked(
            worth_questions::planner_questions_route_feasible(route, problem),
        ),
        RouteQuestion::RouteEval => of_evaluated(worth_questions::route_eval(route, problem)),
        RouteQuestion::EffectiveCost => of_number(worth_questions::effective_cost(route, problem)),
        RouteQuestion::Schedule(rest) => of_evaluated(worth_questions::planner_questions_schedule(
            route, rest, problem,
        )),
        RouteQuestion::RouteDistance => of_number(worth_questions::planner_questions_route_distance(
            route, problem,
        )),
    }
}
