// What a vehicle allows one route besides its load: distance, duration, and the driver's break (`RouteLimits` of evaluation/mod.rs).
ghost use Rattle.std.specs.Prelude.{◌≡◌};
ghost use Rattle.models.specs.RouteLimits.{limits_of, is_unlimited, within, allow};

use crate::vehicle::{Vehicle, VehicleBreak};

#[derive(Clone, Copy)]
pub struct RouteLimits {
    pub max_distance: Option<f64>,
    pub max_duration: Option<f64>,
    pub rest: Option<VehicleBreak>,
}

impl RouteLimits {
    // Nothing is limited, and there is no break.
    pub const NONE: RouteLimits = RouteLimits {
        max_distance: None,
        max_duration: None,
        rest: None,
    };

    // The limits that a vehicle sets.
    pub fn of(vehicle: Vehicle) -> RouteLimits
        ensures { result ≡ limits_of vehicle }
    {
        RouteLimits {
            max_distance: vehicle.max_distance,
            max_duration: vehicle.max_duration,
            rest: vehicle.rest,
        }
    }

    // Whether nothing is set: no limit, no break.
    pub fn is_unlimited(self) -> bool
        ensures { result ≡ is_unlimited self }
    {
        self.max_distance.is_none() && self.max_duration.is_none() && self.rest.is_none()
    }

    // Whether a route of this distance that is back at the depot at `duration` keeps both limits. A limit met exactly is kept.
    pub fn allow(self, distance: f64, duration: f64) -> bool
        ensures { result ≡ allow self distance duration }
    {
        within(self.max_distance, distance) && within(self.max_duration, duration)
    }
}

// Whether x keeps the limit, if there is one.
fn within(limit: Option<f64>, x: f64) -> bool
    ensures { result ≡ within limit x }
{
    limit.is_none_or(|most| x <= most)
}
