// Writes what a text prints to standard output, for the programs over sheets.
#![tactic(auto)]

ghost use Rattle.std.specs.Prelude.{◌≡◌, length};
ghost use Rattle.sheet_listing.specs.sheet_answers.Printed.{printed};
ghost use Rattle.sheet_planner.specs.Output.{into};

use room::zeros;
use sheet_planner::plan_sheet;

// The handle of standard output.
pub const STDOUT: i32 = 1;

// Room for what is printed: no text prints more.
pub const LISTING_ROOM: usize = 6000;

// This room, empty.
pub fn listing_room() -> [u8; LISTING_ROOM]
    ensures { length result ≡ 6000 }
{
    zeros()
}

// Writes what a text prints: its listing, or the line of its refusal. It is proved that this stands in the slice, and not that standard output gets it.
pub fn print_sheet(out: &mut [u8], text: &[u8])
    ensures { out.new ≡ (into out.old (printed text.now)).bytes }
{
    if let Some(n) = plan_sheet(out, text) {
        io::write_all(STDOUT, &out[..n]);
    }
}
