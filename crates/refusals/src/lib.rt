// What a call is refused with before it begins, by the refusal table (entry, specs/Table.antt); its rows in groups are in `refusal_rows`.
#![tactic(auto)]

pub mod calls;

// Of the crates below, passed on to those above.
pub use refusal_rows::{
    Customers, DistanceMatrix, Problem, Refusal, RouteEval, RouteLimits, TimeWindow, Vehicle,
    VehicleBreak, Work, break_schedule_schedule, evaluation_check, route_cost_gain_floor,
    route_cost_route_distance,
};
