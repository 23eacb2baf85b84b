// When a stop is left, for the quick test of the ejection pool (local_search/route_minimization.rs, `served_at`, `departures`). The definitions of the whole test are
// in specs/; the test of one position is `quick_fit`.
#![tactic(auto)]

ghost use Rattle.std.specs.Prelude.{◌≡◌, ◌<◌};
ghost use Rattle.quick_test.specs.Quick.{served_at};
ghost use Rattle.quick_test.specs.Parts.{leave};

use insertion_cost::Customer;

// Of the crates below, passed on to those above.
pub use insertion_cost::{
    Counts, Demand, DistanceMatrix, Fleet, Insertion, Instance, LocalSearchNext, Network, Pick,
    Reduction, TimeWindow, Vehicle, abs, checked, constrained, copy_cells, copy_part, customer_at,
    feasible, has_room, infinity, insertion_cost, max, min, pick_after, prev_stop, rounds, routes,
    travel_time, trial_ok, within_capacity,
};

// When the service of a customer ends after `arrival`; none once its window has closed, with a penalty or without.
#[tactic(auto, unfolding(crate::specs::Quick::served_at))]
pub fn served_at(arrival: f64, customer: Customer) -> Option<f64>
    ensures { result ≡ served_at arrival customer }
{
    let Some(tw) = customer.time_window else {
        return Some(arrival + customer.service_duration);
    };
    if arrival > tw.due {
        return None;
    }
    Some(arrival + tw.waiting_time(arrival) + customer.service_duration)
}

// The drive from `prev`, left at `time`, to c and the service there.
#[tactic(auto, unfolding(crate::specs::Parts::leave))]
pub fn leave(time: f64, prev: usize, c: usize, net: &Network) -> Option<f64>
    requires { (prev < net.now.roads.size) × (c < net.now.roads.size) }
    ensures { result ≡ leave net.now.places net.now.roads time prev c }
{
    let arrival = time + travel_time(&net.roads, prev, c);
    let customer = customer_at(c, &net.places);
    served_at(arrival, customer)
}
