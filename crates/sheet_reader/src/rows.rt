// The numbers of a line.
ghost use Rattle.std.specs.Prelude.{◌≡◌, ◌<◌, ◌^◌, ℕ, length, map};
ghost use Rattle.sheet_cells.specs.sheet_text.Text.{line};
ghost use Rattle.sheet_cells.specs.sheet_text.Told.{Reads, told_as, seen};

use sheet_cells::{Refusal, Text, before, ending, sheet_text_number as number};

// The numbers that end a line, one for each cell, which holds what is made of it.
pub fn number_row<T: Copy, F: Fn(u32) -> T>(
    cells: &mut [T],
    text: &mut Text<'_>,
    cell: F,
) -> Result<(), Refusal>
    requires { F.IsAlwaysCallable cell }
    ensures { (f : ℕ → T) → ((v : ℕ) (y : T) → v < 2 ^ 32 → F.post cell v y → y ≡ f v) → Reads (seen (map f) (line (length cells.old))) text.old
        (told_as (λ done. cells.new) result) text.new }
{
    let k = cells.len();
    for (i, slot) in cells.iter_mut().enumerate() {
        let v = before(text, number, ending(k - (i + 1)))?;
        *slot = cell(v);
    }
    Ok(())
}
