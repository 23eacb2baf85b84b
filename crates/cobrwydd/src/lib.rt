// The C interface: functions on numbers and slices, for programs in C, Rust and other languages. include/cobrwydd.h declares them and says
// what each does; a slice goes as a pointer and a length.
#![tactic(auto)]

pub mod calls;
pub mod lists;
pub mod questions;
pub mod sheet;
