// Answers of the C interface, written into the slices that are lent for them: yes or no, a number, a window, what a call did. `c_evaluations` writes
// evaluations.
#![tactic(auto)]

ghost use Rattle.std.specs.Prelude.{◌≡◌, [], length};
ghost use Rattle.c_evaluations.specs.planner.Calls.{answered};
ghost use Rattle.c_evaluations.specs.planner.Told.{told};
ghost use Rattle.c_evaluations.specs.c_values.Said.{values, says, put, checked_values, number_values, window_values, reduction_values};

use c_evaluations::{Reduction, Refusal, TimeWindow};

// Of the crates below, passed on to those above.
pub use c_evaluations::{Shape, put_evaluated};

// Yes or no.
pub fn put_checked(found: &mut [u64], a: Result<bool, Refusal>) -> u8
    requires { length found.old ≡ 1 }
    ensures { says result [] found.new ≡ put checked_values (values [] found.old) (told a) }
{
    match a {
        Ok(passes) => {
            found[0] = u64::from(passes);
            0
        }
        Err(refusal) => refusal.number(),
    }
}

// A number.
pub fn put_number(out: &mut [f64], a: Result<f64, Refusal>) -> u8
    requires { length out.old ≡ 1 }
    ensures { says result out.new [] ≡ put number_values (values out.old []) (told a) }
{
    match a {
        Ok(x) => {
            out[0] = x;
            0
        }
        Err(refusal) => refusal.number(),
    }
}

// A window, which is never refused.
pub fn put_window(out: &mut [f64], found: &mut [u64], w: Option<TimeWindow>) -> u8
    requires { (length out.old ≡ 2) × (length found.old ≡ 1) }
    ensures { says result out.new found.new ≡ put window_values (values out.old found.old) (answered w) }
{
    match w {
        Some(tw) => out.copy_from_slice(&[tw.ready, tw.due]),
        None => out.fill(0.0),
    }
    found[0] = u64::from(w.is_some());
    0
}

// What a call that changes a plan did: routes left, steps, draws.
pub fn put_reply(counts: &mut [u64], a: Result<Reduction, Refusal>) -> u8
    requires { length counts.old ≡ 3 }
    ensures { says result [] counts.new ≡ put reduction_values (values [] counts.old) (told a) }
{
    match a {
        Ok(done) => {
            counts.copy_from_slice(&[done.routes as u64, done.counts.steps, done.counts.draws]);
            0
        }
        Err(refusal) => refusal.number(),
    }
}
