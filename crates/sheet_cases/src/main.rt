// Prints what several sheets print, one after the other. Standard input holds each sheet behind its number of bytes, in decimal, and a line end;
// README.md says how it is made. What must be printed is the original's answer to each.
#![tactic(auto)]

ghost use Rattle.std.specs.Prelude.{◌≡◌, ◌<◌, length, IfSome};

use room::zeros;
use sheet_print::{STDOUT, listing_room, print_sheet};
use stored::Numbers;

// Room for the sheets.
const CASES_ROOM: usize = 131072;

// This room, empty.
fn cases_room() -> [u8; CASES_ROOM]
    ensures { length result ≡ 131072 }
{
    zeros()
}

// The sheet's number of bytes is not there, or is not that of what follows.
fn print_fault() {
    io::write_all(STDOUT, b"a case is not of the form\n");
}

// The next sheet, behind its number of bytes and the line end.
fn sheet_at<'a>(numbers: &mut Numbers<'a>) -> Option<&'a [u8]>
    ensures { IfSome result (λ _. length numbers.new.rest.now < length numbers.old.rest.now) }
{
    let size = numbers.next()?;
    let (_line_end, rest) = numbers.rest.split_first()?;
    if size > rest.len() as u64 {
        return None;
    }
    let (sheet, rest) = rest.split_at(size as usize);
    numbers.rest = rest;
    Some(sheet)
}

// Prints what each sheet prints.
fn print_cases(text: &[u8]) {
    let mut out = listing_room();
    let mut numbers = Numbers { rest: text };
    while !numbers.rest.is_empty() {
        let Some(sheet) = sheet_at(&mut numbers) else {
            print_fault();
            return;
        };
        print_sheet(&mut out, sheet);
    }
}

fn main() {
    let mut text = cases_room();
    let n = io::read_full(0, &mut text);
    print_cases(&text[..n]);
}
