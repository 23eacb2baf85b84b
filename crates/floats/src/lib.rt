// Binary64 as Rust has it: definitions and laws, no code. specs/Binary64.antt says what the operators, constants and functions of an f64 are; the functions
// themselves stand in float_functions.
#![tactic(auto)]
