// The most that the lateness of any plan can cost (evaluation/mod.rs, `lateness_bound`).
#![tactic(auto)]

pub mod bound;

// Of the crates below, passed on to those above.
pub use route_worth::{
    Problem, Vehicle, effective_cost as route_worth_effective_cost,
    route_eval as route_worth_route_eval,
};
