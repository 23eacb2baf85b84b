// Numbers in a text, for a program that reads stored answers: unsigned decimals, one by one or as a slice after its count.
#![tactic(auto)]

mod cells;
mod numbers;

pub use cells::FromNumber;
pub use numbers::Numbers;

// Of the crates below, passed on to those above.
pub use stored_values::Kind;
