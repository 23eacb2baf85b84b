// The stored calls that change a plan: each is asked on the plan as the last one left it, and its answer and both slices are compared.
#![tactic(auto)]

ghost use Rattle.std.specs.Prelude.{◌≡◌, length};
ghost use Rattle.called.specs.models.Lent.{of_problem};
ghost use Rattle.called.specs.planner.Run.{call};
ghost use Rattle.called.specs.planner.Told.{slices_of, work_of};
ghost use Rattle.called.specs.Changes.{change_of};
ghost use Rattle.change_verdict.specs.Changed.{asked_by, replayed, replayed_as};

use called::changed;
use same_answers::{Kind, Stored, of_replied, same_plan, same_stored};

// Of the crates below, passed on to those above.
pub use called::{Allowance, Change, Problem};

// What a kind asks, with what a minimise may use; nothing where it is a question.
pub fn change_asked(kind: Kind, allowance: Allowance) -> Option<Change>
    ensures { result ≡ asked_by kind allowance.entry }
{
    match kind {
        Kind::Minimise => Some(Change::Minimise(allowance)),
        Kind::Eliminate => Some(Change::Eliminate),
        _ => None,
    }
}

// Whether a call's answer and the plan after it are the stored ones.
pub fn change_agrees(
    change: Change,
    lengths: &mut [u16],
    stops: &mut [u16],
    answer: Stored,
    lengths_after: &[u16],
    stops_after: &[u16],
    work: &mut [u16],
    cells: &mut [f64],
    problem: &Problem,
) -> bool
    ensures { replayed_as result lengths.new stops.new ≡ replayed
        (call (of_problem problem.now) (slices_of lengths.old stops.old) (change_of change.entry (work_of (length work.old) (length cells.old))))
        answer lengths_after.now stops_after.now }
{
    let replied = changed(change, lengths, stops, work, cells, problem);
    let told = of_replied(replied);
    same_stored(told, answer) && same_plan(lengths, stops, lengths_after, stops_after)
}
