// The vehicle, made of the numbers that C hands over.
#![tactic(auto)]

ghost use Rattle.std.specs.Prelude.{◌≡◌};
ghost use Rattle.c_vehicle.specs.VehicleOf.{vehicle_of};

use models::vehicle::{Vehicle, VehicleBreak};

// The vehicle. Bit 0 of `given` says whether there is a limit on the distance, bit 1 on the duration, bit 2 whether there is a break.
#[tactic(auto, unfolding(crate::specs::VehicleOf::vehicle_of))]
pub fn vehicle_of(
    capacity: i32,
    depot: usize,
    fixed_cost: f64,
    cost_per_distance: f64,
    given: u8,
    max_distance: f64,
    max_duration: f64,
    earliest: f64,
    latest: f64,
    duration: f64,
) -> Vehicle
    ensures { result ≡ vehicle_of capacity depot fixed_cost cost_per_distance given max_distance max_duration earliest latest duration }
{
    let rest = VehicleBreak::new(earliest, latest, duration);
    Vehicle {
        capacity,
        depot_id: depot,
        fixed_cost,
        cost_per_distance,
        max_distance: (given % 2 == 1).then_some(max_distance),
        max_duration: (given / 2 % 2 == 1).then_some(max_duration),
        rest: (given / 4 % 2 == 1).then_some(rest),
    }
}
