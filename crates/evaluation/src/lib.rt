// Whether a route passes, and what an evaluation says (evaluation/mod.rs). What a route is worth is worked out in `route_worth`.
// The three walks over a route (`check`, `route_drive`, and `schedule` of `break_schedule`) have one form: a step for a stop, a loop over stops, and the way home.
#![tactic(auto)]

pub mod check;
pub mod demand;
pub mod eval;
pub mod fleet;
pub mod instance;

pub use demand::Demand;
pub use fleet::Fleet;
pub use instance::Instance;

// Of the crates below, passed on to those above.
pub use break_schedule::{
    Customer, Customers, DistanceMatrix, Label, Network, Problem, Riding, RouteEval, RouteLimits,
    TimeWindow, Vehicle, VehicleBreak, abs, customer_at, get, infinity, is_finite, is_penalised,
    is_windowed, largest, max, min, penalty_at, ride_all, ride_home, scale,
    schedule as break_schedule_schedule, serve_at, total_less, travel_time, window_at,
};
