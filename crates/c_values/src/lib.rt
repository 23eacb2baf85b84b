// The values of the C interface: what a function returns, and what it leaves in the slices that it is lent for its answer. This crate has no code: its
// definitions are in specs/, its laws in proofs/.
#![tactic(auto)]

// Of the crates below, passed on to those above.
pub use c_fits::{Fault, Shape};
