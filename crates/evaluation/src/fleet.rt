// A vehicle on its network: what a route is checked and priced by.
ghost use Rattle.std.specs.Prelude.{◌≡◌, ◌<◌};
ghost use Rattle.break_schedule.specs.models.RouteLimits.{limits_of};
ghost use Rattle.evaluation.specs.Check.{route_checks_needed, has_soft_windows};

use break_schedule::{Network, Vehicle};

// `needed` says whether its routes need the check at all: if any place has a window, or any limit or break is set. `soft` says whether any place has a
// window and a penalty, so that lateness is weighed.
#[derive(Drop)]
pub struct Fleet<'a> {
    pub net: Network<'a>,
    pub vehicle: Vehicle,
    pub needed: bool,
    pub soft: bool,
    pub ghost depot_in: { vehicle.depot_id < net.roads.size },
    pub ghost needed_is: { needed ≡ route_checks_needed net.places.flags (limits_of vehicle) },
    pub ghost soft_is: { soft ≡ has_soft_windows net.places.flags },
}
