// What holds of every route evaluation: that check and evaluation agree, and that every route passes where no check is needed.
// This crate has no code: its theorems are in proofs/.
#![tactic(auto)]

// Of the crates below, passed on to those above.
pub use trial_route::{
    Customer, Customers, Demand, DistanceMatrix, Fleet, Instance, Network, Problem, RouteEval,
    RouteLimits, TimeWindow, Vehicle, abs, break_schedule_schedule, customer_at, evaluation_check,
    evaluation_route_feasible, get, has_soft_windows, infinity, max, min, route_checks_needed,
    scale, travel_time, trial_feasible,
};
