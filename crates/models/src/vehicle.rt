// The vehicle, its limits and its driver's break (models/vehicle.rs).
ghost use Rattle.std.specs.Prelude.{◌≡◌};
ghost use Rattle.models.specs.Vehicle.{vehicle_break_new, fixed_cost_in_distance};

// A rest of `duration` that starts no earlier than `earliest` and no later than `latest`, at a stop, before its service.
#[derive(Clone, Copy)]
pub struct VehicleBreak {
    pub earliest: f64,
    pub latest: f64,
    pub duration: f64,
}

// A vehicle: every route starts and ends at its depot. A route costs `fixed_cost + cost_per_distance × distance`; it may have limits and a break.
#[derive(Clone, Copy)]
pub struct Vehicle {
    pub capacity: i32,
    pub depot_id: usize,
    pub fixed_cost: f64,
    pub cost_per_distance: f64,
    pub max_distance: Option<f64>,
    pub max_duration: Option<f64>,
    pub rest: Option<VehicleBreak>,
}

impl VehicleBreak {
    // The break of three numbers.
    pub fn new(earliest: f64, latest: f64, duration: f64) -> VehicleBreak
        ensures { result ≡ vehicle_break_new earliest latest duration }
    {
        VehicleBreak {
            earliest,
            latest,
            duration,
        }
    }
}

impl Vehicle {
    // The fixed cost in units of distance, 0 where distance costs nothing.
    pub fn fixed_cost_in_distance(self) -> f64
        ensures { result ≡ fixed_cost_in_distance self }
    {
        if self.cost_per_distance > 0.0 {
            self.fixed_cost / self.cost_per_distance
        } else {
            0.0
        }
    }
}
