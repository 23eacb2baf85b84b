// Reads a whole sheet into lent slices: its problem, and the request behind it. Whoever lends them sees nothing of a refusal if the slices are its own locals.
#![tactic(auto)]

pub mod parts;
pub mod request;
pub mod sheet;

// Of the crates below, passed on to those above.
pub use sheet_problem::{Columns, Head};
