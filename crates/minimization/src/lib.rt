// Route minimisation (local_search/route_minimization.rs, `minimize_routes`): its definition and its laws, in specs/.
// This crate has no code.
#![tactic(auto)]

// Of the crates below, passed on to those above.
pub use pool_cost::{
    Allowance, Counts, Customers, DistanceMatrix, LocalSearchNext, Minimisation, Pick, Problem,
    Reduction, Vehicle, copy_cells, copy_part, each, pick_after, plan_cost, rounds, routes,
};
