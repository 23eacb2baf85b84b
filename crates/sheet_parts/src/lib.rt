// The parts that a sheet fills of the slices that it was read into, and the plan made of them.
#![tactic(auto)]

ghost use Rattle.std.specs.Prelude.{◌≡◌, ◌*◌, ◌≤◌, length, take};
ghost use Rattle.sheet_whole.specs.sheet_reader.Cells.{of_columns, Room as ColumnRoom};
ghost use Rattle.sheet_whole.specs.Whole.{sheet_in};
ghost use Rattle.sheet_calls.specs.listing.Written.{Written};
ghost use Rattle.sheet_calls.specs.sheet_laws.Short.{Short};
ghost use Rattle.sheet_calls.specs.sheet_answers.Printed.{planned};

use sheet_calls::{Allowance, Customers, DistanceMatrix, Problem, list_planned};
use sheet_whole::parts::Sheet;

// Of the crates below, passed on to those above.
pub use sheet_calls::{Page, Refusal, put_refusal, put_refused};
pub use sheet_whole::Columns;
pub use sheet_whole::sheet::sheet as sheet_whole_sheet;

// Plans what the slices hold of a sheet.
pub fn list_parts(
    out: &mut [u8],
    lengths: &mut [u16],
    stops: &mut [u16],
    work: &mut [u16],
    cells: &mut [f64],
    tape: &[u64],
    columns: &Columns,
    distances: &[f64],
    times: &[f64],
    read: Sheet,
) -> usize
    requires in_bounds { (6000 ≤ length out.old) × (length work.old ≡ 8192) × (length cells.old ≡ 2048) }
    requires in_bounds_2 { (64 ≤ length lengths.old) × (64 ≤ length stops.old) × (1024 ≤ length tape.now) }
    requires column_room { ColumnRoom 64 (of_columns columns.now) }
    requires in_bounds_3 { (4096 ≤ length distances.now) × (4096 ≤ length times.now) }
    requires n_bound { (read.head.n ≤ 64) × (read.head.timed ≤ read.head.n) × (read.request.draws ≤ 1024) × (read.request.plan.given ≤ 64)
        × (read.request.plan.used ≤ 64) }
    requires short { Short read.head.n (take (read.head.n * read.head.n) distances.now) }
    ensures { Written out.old 0 (planned
        (sheet_in lengths.old stops.old tape.now (of_columns columns.now) distances.now times.now read)) out.new result }
{
    let n = read.head.n;
    let timed = read.head.timed;
    let vehicle = read.head.vehicle;
    let asked = read.request;
    let m = n * n;
    let t = timed * timed;
    let places = Customers {
        service: &columns.service[..n],
        ready: &columns.ready[..n],
        due: &columns.due[..n],
        penalty: &columns.penalty[..n],
        flags: &columns.flags[..n],
    };
    let roads = DistanceMatrix {
        size: n,
        distances: &distances[..m],
        times: &times[..t],
    };
    let problem = Problem {
        demand: &columns.demand[..n],
        places: &places,
        roads: &roads,
        vehicle,
    };
    list_planned(
        out,
        &mut lengths[..asked.plan.given],
        &mut stops[..asked.plan.used],
        work,
        cells,
        Allowance {
            tape: &tape[..asked.draws],
            limit: asked.run.limit,
            clock: asked.run.clock,
        },
        &problem,
    )
}
