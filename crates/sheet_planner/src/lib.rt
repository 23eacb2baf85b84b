// A sheet from bytes to bytes: read, minimised, eliminated, listed.
#![tactic(auto)]

ghost use Rattle.std.specs.Prelude.{◌≡◌, ◌≤◌, length};
ghost use Rattle.sheet_listing.specs.listing.Written.{Written};
ghost use Rattle.sheet_listing.specs.sheet_answers.Printed.{printed};
ghost use Rattle.sheet_planner.specs.Output.{output, into};

use room::zeros;
use sheet_listing::{Columns, list_read};

// The most places, the most routes and the most stops of a sheet.
const MOST: usize = 64;

// The cells of a matrix over so many places.
const SQUARE: usize = 4096;

// The most draws.
const DRAWS: usize = 1024;

// The u16 work cells: the least that row 9 leaves.
const WORK: usize = 8192;

// The f64 work cells: the least that row 9 leaves.
const FLOAT_WORK: usize = 2048;

// Prints what a text prints.
fn listed(out: &mut [u8], text: &[u8]) -> usize
    requires { 6000 ≤ length out.old }
    ensures { Written out.old 0 (printed text.now) out.new result }
{
    let mut lengths: [u16; MOST] = zeros();
    let mut stops: [u16; MOST] = zeros();
    let mut work: [u16; WORK] = zeros();
    let mut cells: [f64; FLOAT_WORK] = zeros();
    let mut tape: [u64; DRAWS] = zeros();
    let mut demand: [i32; MOST] = zeros();
    let mut service: [f64; MOST] = zeros();
    let mut ready: [f64; MOST] = zeros();
    let mut due: [f64; MOST] = zeros();
    let mut penalty: [f64; MOST] = zeros();
    let mut flags: [u8; MOST] = zeros();
    let mut distances: [f64; SQUARE] = zeros();
    let mut times: [f64; SQUARE] = zeros();
    let mut columns = Columns {
        demand: &mut demand,
        service: &mut service,
        ready: &mut ready,
        due: &mut due,
        penalty: &mut penalty,
        flags: &mut flags,
    };
    list_read(
        out,
        &mut lengths,
        &mut stops,
        &mut work,
        &mut cells,
        &mut tape,
        &mut columns,
        &mut distances,
        &mut times,
        text,
    )
}

// Prints what a text prints into a slice of at least 6,000 bytes, and says how many bytes that are; the rest of the slice stays as it is. A shorter slice
// has no room, and nothing is printed.
pub fn plan_sheet(out: &mut [u8], text: &[u8]) -> Option<usize>
    ensures { output result out.new ≡ into out.old (printed text.now) }
{
    if out.len() < 6000 {
        return None;
    }
    Some(listed(out, text))
}
