// What the two route searches share (local_search/mod.rs and the helpers of both): whether a route is feasible, and the rounds of attempts, whose
// definitions and laws are in specs/.
#![tactic(auto)]

pub mod feasible;
pub mod rounds;

// Of the crates below, passed on to those above.
pub use route_load::{
    Customer, Demand, DistanceMatrix, Fleet, Insertion, Instance, Network, Problem, RouteEval,
    TimeWindow, Vehicle, abs, break_schedule_schedule, customer_at, evaluation_check, get,
    has_room, infinity, load, max, min, route_cost_gain_floor, route_cost_route_distance,
    travel_time, within_capacity,
};
pub use route_order::{Pick, copy_cells, copy_part, cut, each, insert_at, pick_after, routes};
