// Whether two answers as they are stored, or two plans, are the same.
#![tactic(auto)]

ghost use Rattle.std.specs.Prelude.{◌≡◌};
ghost use Rattle.stored_answers.specs.planner.Told.{slices_of};
ghost use Rattle.stored_answers.specs.Answers.{same_stored, same_plan};

// Of the crates below, passed on to those above.
pub use stored_answers::{Kind, Stored, of_number, of_replied, of_window};

// Whether two answers have the same numbers.
pub fn same_stored(x: Stored, y: Stored) -> bool
    ensures { result ≡ same_stored x y }
{
    x == y
}

// Whether both slices of a plan are the stored ones.
#[tactic(auto, using(crate::proofs::CellLaws::compared_cells))]
pub fn same_plan(lengths: &[u16], stops: &[u16], lengths_after: &[u16], stops_after: &[u16]) -> bool
    ensures { result ≡ same_plan (slices_of lengths.now stops.now) lengths_after.now stops_after.now }
{
    lengths == lengths_after && stops == stops_after
}
