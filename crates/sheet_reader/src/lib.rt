// Reads the places of a sheet, and the numbers of a line, into lent slices.
#![tactic(auto)]

pub mod places;
pub mod rows;

// Of the crates below, passed on to those above.
pub use sheet_cells::{Refusal, Text, before, byte, ending, heading, sheet_text_number, stop_cell};
