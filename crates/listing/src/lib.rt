// What a listing is, how long it can be, and texts that are written into a slice piece by piece.
// This crate has no code: its definitions are in specs/, its laws in proofs/; `listing_numbers`, `listing_lines`, `listing_totals`, `listing_routes` and
// `listing_whole` write.
#![tactic(auto)]

// Of the crates below, passed on to those above.
pub use local_search::rounds::Counts;
pub use local_search::{Demand, Problem, Vehicle, each, load, route_cost_route_distance};
