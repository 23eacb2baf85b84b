// What C is told after a list of calls and after a sheet.
#![tactic(auto)]

ghost use Rattle.std.specs.Prelude.{◌≡◌, length};
ghost use Rattle.c_reports.specs.Reports.{ran_code, printed_code, bytes_written};

use c_values::Fault;
use call_lists::Malformed;

// Of the crates below, passed on to those above.
pub use call_lists::{Allowance, Buffers, eliminate, minimise, run_calls};
pub use sheet_planner::plan_sheet;

// The number for a list of calls.
pub fn ran_code(ran: Result<usize, Malformed>) -> u8
    ensures { result ≡ ran_code ran }
{
    match ran {
        Ok(_) => 0,
        Err(Malformed) => 102,
    }
}

// The number for a sheet, and how many bytes it printed.
pub fn put_printed(written: &mut [u64], p: Option<usize>) -> u8
    requires { length written.old ≡ 1 }
    ensures code { result ≡ printed_code p }
    ensures number { written.new ≡ bytes_written p written.old }
{
    match p {
        Some(n) => {
            written[0] = n as u64;
            0
        }
        None => Fault::Length.code(),
    }
}
