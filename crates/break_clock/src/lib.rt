// The clock of a route that carries a driver's break, and what it says of the route (evaluation/schedule.rs).
#![tactic(auto)]

pub mod route_eval;
pub mod schedule;

// Of the crates below, passed on to those above.
pub use labels::{
    Customer, Customers, DistanceMatrix, Label, Network, Problem, RouteLimits, TimeWindow, Vehicle,
    VehicleBreak, abs, customer_at, get, infinity, is_finite, is_penalised, is_windowed, largest,
    max, min, penalty_at, scale, serve_at, total_less, travel_time, window_at,
};
