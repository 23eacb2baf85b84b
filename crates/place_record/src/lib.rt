// One place read from the places' slices: its window and its penalty by its flags, and the record that the evaluation reads.
#![tactic(auto)]

ghost use Rattle.std.specs.Prelude.{◌≡◌, ◌<◌, length};
ghost use Rattle.models.specs.Customer.{Sized, window_at, penalty_at, customer_at};

// Of the crates below, passed on to those above.
pub use models::customer::{Customer, TimeWindow};
pub use models::customers::Customers;
pub use models::flags::{is_penalised, is_windowed};
pub use models::limits::RouteLimits;
pub use models::matrix::DistanceMatrix;
pub use models::network::Network;
pub use models::problem::Problem;
pub use models::vehicle::{Vehicle, VehicleBreak};
pub use models::{abs, infinity, is_finite, max, min, total_less};

// The window of place `c`, if its flags say that it has one. A value whose flag is clear is not read.
pub fn window_at(c: usize, places: &Customers) -> Option<TimeWindow>
    requires { (c < length places.now.ready) × (c < length places.now.due) × (c < length places.now.flags) }
    ensures { result ≡ window_at places.now.ready places.now.due places.now.flags c }
{
    let (flags, ready, due) = (places.flags, places.ready, places.due);
    is_windowed(flags[c]).then(|| TimeWindow {
        ready: ready[c],
        due: due[c],
    })
}

// The penalty of place `c`, if its flags say that it has one.
pub fn penalty_at(c: usize, places: &Customers) -> Option<f64>
    requires { (c < length places.now.penalty) × (c < length places.now.flags) }
    ensures { result ≡ penalty_at places.now.penalty places.now.flags c }
{
    let (flags, penalty) = (places.flags, places.penalty);
    is_penalised(flags[c]).then(|| penalty[c])
}

// Place `c` as one value.
pub fn customer_at(c: usize, places: &Customers) -> Customer
    requires sized { Sized places.now (length places.now.service) }
    requires c_in_bounds { c < length places.now.service }
    ensures { result ≡ customer_at places.now c }
{
    let service = places.service;
    Customer {
        service_duration: service[c],
        time_window: window_at(c, places),
        lateness_penalty: penalty_at(c, places),
    }
}
