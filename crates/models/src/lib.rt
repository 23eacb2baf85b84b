// The problem's parts: places, vehicle, limits (models/customer.rs, models/vehicle.rs and the limits of evaluation/mod.rs).
// What a problem is as a whole, and what makes one valid, is said in specs/Problem.antt.
#![tactic(auto)]

pub mod customer;
pub mod customers;
pub mod flags;
pub mod limits;
pub mod matrix;
pub mod network;
pub mod problem;
pub mod vehicle;

// Of the crates below, passed on to those above.
pub use float_functions::{abs, infinity, is_finite, is_sign_negative, max, min, total_less};
