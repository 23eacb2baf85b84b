// What holds of the numbers of every route evaluation: none is a NaN, none overflows, and their bounds.
// This crate has no code: its theorems are in proofs/.
#![tactic(auto)]
