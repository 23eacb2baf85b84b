// What the places' flags and the limits ask of a search: whether any place has a window, or a window and a penalty, and whether the route check is needed
// at all (evaluation/mod.rs, `has_time_windows`, `has_soft_windows`, `route_checks_needed`).
#![tactic(auto)]

ghost use Rattle.std.specs.Prelude.{◌≡◌};
ghost use Rattle.evaluation.specs.Check.{soft, has_time_windows, has_soft_windows, route_checks_needed};

use evaluation::{is_penalised, is_windowed};

// Of the crates below, passed on to those above.
pub use evaluation::check::{
    Way, home_allowed, reach, reach_all, route_feasible as evaluation_route_feasible,
};
pub use evaluation::eval::{Walk, is_feasible, limited};
pub use evaluation::{
    Customer, Customers, Demand, DistanceMatrix, Fleet, Instance, Label, Network, Problem, Riding,
    RouteEval, RouteLimits, TimeWindow, Vehicle, VehicleBreak, abs, break_schedule_schedule,
    check as evaluation_check, customer_at, get, infinity, is_finite, largest, max, min,
    penalty_at, ride_all, ride_home, scale, serve_at, total_less, travel_time, window_at,
};

// Whether a place's flags say that it has a window and a penalty.
fn is_soft(flag: u8) -> bool
    ensures { result ≡ soft flag }
{
    is_windowed(flag) && is_penalised(flag)
}

// Whether any place has a time window.
#[tactic(auto, unfolding(evaluation::specs::Check::has_time_windows))]
pub fn has_time_windows(flags: &[u8]) -> bool
    ensures { result ≡ has_time_windows flags.now }
{
    flags.iter().any(|flag| is_windowed(*flag))
}

// Whether any place, the depot included, has a window and a penalty.
#[tactic(auto, unfolding(evaluation::specs::Check::has_soft_windows))]
pub fn has_soft_windows(flags: &[u8]) -> bool
    ensures { result ≡ has_soft_windows flags.now }
{
    flags.iter().any(|flag| is_soft(*flag))
}

// Whether a search has to make the route check at all: where no place has a window and nothing is limited, every route passes it.
pub fn route_checks_needed(flags: &[u8], limits: RouteLimits) -> bool
    ensures { result ≡ route_checks_needed flags.now limits }
{
    has_time_windows(flags) || !limits.is_unlimited()
}
