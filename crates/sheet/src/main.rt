// Prints what the sheet on standard input prints: its listing, or the line of its refusal.
#![tactic(auto)]

ghost use Rattle.std.specs.Prelude.{◌≡◌, length};

use room::zeros;
use sheet_print::{listing_room, print_sheet};

// Room for a sheet and one byte more, by which a sheet that is too long is known.
const SHEET_ROOM: usize = 60001;

// This room, empty.
fn sheet_room() -> [u8; SHEET_ROOM]
    ensures { length result ≡ 60001 }
{
    zeros()
}

fn main() {
    let mut text = sheet_room();
    let mut out = listing_room();
    let n = io::read_full(0, &mut text);
    print_sheet(&mut out, &text[..n]);
}
