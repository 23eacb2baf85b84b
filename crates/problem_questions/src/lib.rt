// The questions about a problem's numbers: each is refused by the table, or answers; a window of two numbers is never refused.
#![tactic(auto)]

ghost use Rattle.std.specs.Prelude.{◌≡◌};
ghost use Rattle.planner_questions.specs.models.Lent.{of_problem};
ghost use Rattle.planner_questions.specs.planner.Calls.{public_lateness_bound, public_gain_floor, public_time_window_new};
ghost use Rattle.planner_questions.specs.planner.Told.{told};

use planner_questions::{Refusal, TimeWindow, bound, problem_refusal};

// Of the crates below, passed on to those above.
pub use planner_questions::{Customers, DistanceMatrix, Problem, Vehicle, VehicleBreak};

// The bound on the lateness cost of a route.
pub fn lateness_bound(problem: &Problem) -> Result<f64, Refusal>
    ensures { told result ≡ public_lateness_bound (of_problem problem.now) }
{
    problem_refusal(problem)?;
    let most = bound::lateness_bound(&problem.network());
    Ok(most)
}

// The least gain that counts as one.
pub fn gain_floor(problem: &Problem) -> Result<f64, Refusal>
    ensures { told result ≡ public_gain_floor (of_problem problem.now) }
{
    problem_refusal(problem)?;
    let floor = planner_questions::route_cost_gain_floor(problem.roads.distances());
    Ok(floor)
}

// A window of two finite numbers in order. It is never refused.
pub fn time_window_new(ready: f64, due: f64) -> Option<TimeWindow>
    ensures { result ≡ public_time_window_new ready due }
{
    TimeWindow::new(ready, due)
}
