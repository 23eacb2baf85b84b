// Reads the draws of a sheet into a lent slice.
#![tactic(auto)]

ghost use Rattle.std.specs.Prelude.{◌≤◌, length, take, IfOk};
ghost use Rattle.sheet_reader.specs.sheet_text.Text.{repeat, lf};
ghost use Rattle.sheet_reader.specs.sheet_text.Text.{before as Text·before, number as Text·number};
ghost use Rattle.sheet_reader.specs.sheet_text.Told.{Reads, told_as};
ghost use Rattle.sheet_reader.specs.sheet_format.Form.{draws as Form·draws};

use sheet_reader::{Refusal, Text, before, heading, sheet_text_number as number};

// As many draws as there are cells, one a line.
fn draw_rows(cells: &mut [u64], text: &mut Text<'_>) -> Result<(), Refusal>
    ensures { Reads (repeat (length cells.old) (λ left. Text·before lf Text·number)) text.old (told_as (λ done. cells.new) result) text.new }
{
    for cell in cells.iter_mut() {
        *cell = before(text, number, b'\n')? as u64;
    }
    Ok(())
}

// The section of the draws.
pub fn draws(cells: &mut [u64], text: &mut Text<'_>) -> Result<usize, Refusal>
    requires { 1024 ≤ length cells.old }
    ensures read { Reads Form·draws text.old (told_as (λ m. take m cells.new) result) text.new }
    ensures at_most { IfOk result (λ m. m ≤ 1024) }
{
    let m = heading(text, b"draws", 0, 1024, Refusal::SheetSizes)?;
    draw_rows(&mut cells[..m], text)?;
    Ok(m)
}
