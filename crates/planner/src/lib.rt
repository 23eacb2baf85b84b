// What every public call answers: its definition, and the claim about lists of calls, are in specs/, their proof in proofs/. This crate has no code; the
// calls in code are in minimise_call, eliminate_call, planner_questions, worth_questions and problem_questions.
#![tactic(auto)]

// Of the crates below, passed on to those above.
pub use entry::{Refusal, Work, instance};
pub use lateness_bound::{
    Problem, Vehicle, bound, route_worth_effective_cost, route_worth_route_eval,
};
pub use minimization::{Reduction, copy_cells, copy_part};
