// Reads a square of numbers, as many lines as each has numbers, into lent cells row by row.
#![tactic(auto)]

ghost use Rattle.std.specs.Prelude.{◌*◌, ◌≤◌, length, take};
ghost use Rattle.sheet_reader.specs.sheet_text.Told.{Reads, told_as, seen};
ghost use Rattle.sheet_reader.specs.sheet_format.Form.{square as Form·square, row_by_row};

use sheet_reader::rows::number_row;

// Of the crates below, passed on to those above.
pub use sheet_reader::places::{Columns, places as sheet_reader_places};
pub use sheet_reader::{Refusal, Text, heading};

// n lines of n numbers, row by row.
pub fn square(cells: &mut [f64], text: &mut Text<'_>, n: usize) -> Result<(), Refusal>
    requires { n * n ≤ length cells.old }
    ensures { Reads (seen row_by_row (Form·square n)) text.old (told_as (λ done. take (n * n) cells.new) result) text.new }
{
    for row in 0..n {
        let first = row * n;
        number_row(&mut cells[first..first + n], text, |v| v as f64)?;
    }
    Ok(())
}
