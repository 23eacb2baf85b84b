// Reads a text front to back: bytes and numbers (`sheet_fields` reads the fields of a line, `sheet_headings` words and headings). Each reader begins where
// the text stands and leaves it behind what was read; what its answer means is said in specs/Told.antt. A text may be any bytes.
#![tactic(auto)]

pub mod numbers;
pub mod words;

// Of the crates below, passed on to those above.
pub use refusal::Refusal;

// A text, and the position of the byte that comes next.
#[derive(Drop)]
pub struct Text<'a> {
    pub bytes: &'a [u8],
    pub at: usize,
}
