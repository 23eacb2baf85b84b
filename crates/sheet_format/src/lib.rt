// The form of a sheet, which specs/Form.antt says; and the reader of a place's line.
#![tactic(auto)]

pub mod places;

// Of the crates below, passed on to those above.
pub use models::customer::TimeWindow;
pub use models::vehicle::{Vehicle, VehicleBreak};
pub use sheet_fields::{Refusal, Text, before, byte, ending, sheet_text_number, signed};
pub use sheet_headings::heading;
