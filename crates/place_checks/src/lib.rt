// Rows 2 and 3 of the refusal table in code, place by place: windows, penalties, demands, flags. A value whose flag is clear is not read.
#![tactic(auto)]

ghost use Rattle.std.specs.Prelude.{◌≡◌, ◌<◌, length};
ghost use Rattle.problem_checks.specs.laws.Searches.{every};
ghost use Rattle.problem_checks.specs.models.Valid.{window_passes, penalty_passes, demand_passes, place_passes, window_ordered};

use problem_checks::amounts::is_amount;
use problem_checks::{is_penalised, is_windowed};

// Of the crates below, passed on to those above.
pub use problem_checks::amounts::{amounts_pass, break_passes, vehicle_passes};
pub use problem_checks::sizes::sizes_pass;
pub use problem_checks::{
    Customers, DistanceMatrix, Problem, RouteLimits, TimeWindow, Vehicle, VehicleBreak,
};

// Whether the window of place c, if it has one, is of two amounts.
fn window_passes(c: usize, places: &Customers) -> bool
    requires { (c < length places.now.ready) × (c < length places.now.due) × (c < length places.now.flags) }
    ensures { result ≡ window_passes places.now c }
{
    let (flags, ready, due) = (places.flags, places.ready, places.due);
    !is_windowed(flags[c]) || is_amount(ready[c]) && is_amount(due[c])
}

// Whether the penalty of place c, if it has one, is an amount.
fn penalty_passes(c: usize, places: &Customers) -> bool
    requires { (c < length places.now.penalty) × (c < length places.now.flags) }
    ensures { result ≡ penalty_passes places.now c }
{
    let (flags, penalty) = (places.flags, places.penalty);
    !is_penalised(flags[c]) || is_amount(penalty[c])
}

// Whether a demand is one of -1,000,000..1,000,000, its ends included.
fn demand_passes(d: i32) -> bool
    ensures { result ≡ demand_passes d }
{
    (-1000000..=1000000).contains(&d)
}

// Whether row 2 lets place c pass, its service aside.
fn place_passes(c: usize, demand: &[i32], places: &Customers) -> bool
    requires { (c < length demand.now) × (c < length places.now.ready) × (c < length places.now.due) × (c < length places.now.penalty)
        × (c < length places.now.flags) }
    ensures { result ≡ place_passes demand.now places.now c }
{
    let flags = places.flags;
    flags[c] <= 3
        && window_passes(c, places)
        && penalty_passes(c, places)
        && demand_passes(demand[c])
}

// Whether row 2 lets every place pass, its service aside.
pub fn places_pass(demand: &[i32], places: &Customers) -> bool
    requires { (length places.now.ready ≡ length demand.now) × (length places.now.due ≡ length demand.now)
        × (length places.now.penalty ≡ length demand.now) × (length places.now.flags ≡ length demand.now) }
    ensures { result ≡ every (place_passes demand.now places.now) (length demand.now) 0 }
{
    (0..demand.len()).all(|c| place_passes(c, demand, places))
}

// Whether the window of place c, if it has one, does not close before it opens.
fn window_ordered(c: usize, places: &Customers) -> bool
    requires { (c < length places.now.ready) × (c < length places.now.due) × (c < length places.now.flags) }
    ensures { result ≡ window_ordered places.now c }
{
    let (flags, ready, due) = (places.flags, places.ready, places.due);
    !is_windowed(flags[c]) || !(ready[c] > due[c])
}

// Whether row 3 lets every place pass.
pub fn windows_pass(places: &Customers) -> bool
    requires { (length places.now.ready ≡ length places.now.flags) × (length places.now.due ≡ length places.now.flags) }
    ensures { result ≡ every (window_ordered places.now) (length places.now.flags) 0 }
{
    (0..places.len()).all(|c| window_ordered(c, places))
}
