// The random moves after an ejection (local_search/route_minimization.rs, `Pool::perturb`): their definitions and laws, in specs/, and the draws.
#![tactic(auto)]

pub mod draws;

// Of the crates below, passed on to those above.
pub use ejection_search::{
    Demand, Fleet, Instance, Sought, Vehicle, checked, eject, feasible, within_capacity,
};
