// Rows 1 and 2 of the refusal table, in code: the sizes and the numbers of a problem. What a place must keep besides is in `place_checks`.
#![tactic(auto)]

pub mod amounts;
pub mod sizes;

// Of the crates below, passed on to those above.
pub use models::customer::TimeWindow;
pub use models::customers::Customers;
pub use models::flags::{is_penalised, is_windowed};
pub use models::limits::RouteLimits;
pub use models::matrix::DistanceMatrix;
pub use models::problem::Problem;
pub use models::vehicle::{Vehicle, VehicleBreak};
