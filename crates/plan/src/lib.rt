// A plan in two lent slices, in place of `Vec<Vec<usize>>`: the lengths of its routes, and their stops, route after route.
#![tactic(auto)]

pub mod each;
pub mod routes;

// Of the crates below, passed on to those above.
pub use cell_exchange::{clear, copy_cells, copy_part, cut, insert_at, swap, swap_parts};
pub use routes::offset;
