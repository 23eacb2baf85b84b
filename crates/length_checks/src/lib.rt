// Row 5 of the refusal table (entry, specs/Table.antt) in code: the lengths of a plan.
#![tactic(auto)]

ghost use Rattle.std.specs.Prelude.{◌≡◌};
ghost use Rattle.entry.specs.Table.{bad_lengths};

use entry::routes::total;

// Of the crates below, passed on to those above.
pub use entry::{
    Problem, Refusal, RouteEval, Work, break_schedule_schedule, evaluation_check,
    route_cost_gain_floor, route_cost_route_distance,
};

// Whether there are over 256 lengths, or they do not sum to the number of stops.
#[tactic(auto, using(crate::proofs::SumLaws::total_fits), unfolding(entry::specs::Table::bad_lengths))]
pub fn bad_lengths(lengths: &[u16], stops: &[u16]) -> bool
    ensures { result ≡ bad_lengths (record { lengths = lengths.entry.now; stops = stops.now }) }
{
    lengths.len() > 256 || total(lengths) != stops.len()
}
