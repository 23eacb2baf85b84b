// How late one stop may be reached where the next is to be reached by some time (local_search/route_minimization.rs, a turn of the loop of
// `Pool::latest_arrivals`). Its definition is in quick_test, specs/Quick.antt.
#![tactic(auto)]

ghost use Rattle.std.specs.Prelude.{◌≡◌, ◌<◌};
ghost use Rattle.quick_fit.specs.models.Customer.{customer_at};
ghost use Rattle.quick_fit.specs.quick_test.Quick.{earliest_start, latest_start, latest_arrival};
ghost use Rattle.quick_fit.specs.quick_test.Parts.{latest_in};

use quick_fit::{TimeWindow, customer_at, min, travel_time};

// Of the crates below, passed on to those above.
pub use quick_fit::{
    Counts, Demand, DistanceMatrix, Fleet, Insertion, Instance, LocalSearchNext, Network, Pick,
    Reduction, Vehicle, checked, constrained, copy_cells, copy_part, feasible, has_room, infinity,
    insertion_cost, leave, may_fit, pick_after, rounds, routes, trial_ok, within_capacity,
};

// When service may start at the earliest, where there is a window.
fn earliest_start(window: Option<TimeWindow>) -> f64
    ensures { result ≡ earliest_start window }
{
    window.map_or(-infinity(), |tw| tw.ready)
}

// When service may start at the latest, where there is a window.
fn latest_start(window: Option<TimeWindow>) -> f64
    ensures { result ≡ latest_start window }
{
    window.map_or(infinity(), |tw| tw.due)
}

// How late a stop may be reached where its service has to start by `start_by`: no arrival is in time where it opens after that.
fn latest_in(start_by: f64, window: Option<TimeWindow>) -> f64
    ensures { result ≡ latest_in start_by window }
{
    if earliest_start(window) > start_by {
        return -infinity();
    }
    min(latest_start(window), start_by)
}

// How late c may be reached where the next stop is to be reached by `by`.
pub fn latest_arrival(by: f64, c: usize, next: usize, net: &Network) -> f64
    requires { (c < net.now.roads.size) × (next < net.now.roads.size) }
    ensures { result ≡ latest_arrival net.now.roads (customer_at net.now.places c) c next by }
{
    let travel = travel_time(&net.roads, c, next);
    let customer = customer_at(c, &net.places);
    let start_by = by - travel - customer.service_duration;
    latest_in(start_by, customer.time_window)
}
