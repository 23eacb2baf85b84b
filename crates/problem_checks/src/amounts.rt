// Row 2, floats: each is finite, has its sign clear and is at most 1e12.
ghost use Rattle.std.specs.Prelude.{◌≡◌, Some};
ghost use Rattle.models.specs.Valid.{is_amount, amounts_pass, limit_passes, rest_passes, cost_passes, vehicle_passes};

use models::vehicle::{Vehicle, VehicleBreak};
use models::{is_finite, is_sign_negative};

// Whether x is finite, has its sign bit clear, which -0.0 has not, and is at most 1e12.
pub fn is_amount(x: f64) -> bool
    ensures { result ≡ is_amount x }
{
    if 0.0 < x {
        return x <= 1e12; // the sign is clear, and x is no NaN
    }
    is_finite(x) && !is_sign_negative(x) && x <= 1e12
}

// Whether every cell is an amount.
pub fn amounts_pass(xs: &[f64]) -> bool
    ensures { result ≡ amounts_pass xs.now }
{
    xs.iter().all(|x| is_amount(*x))
}

// Whether a limit is none or an amount.
fn limit_passes(limit: Option<f64>) -> bool
    ensures { result ≡ limit_passes limit }
{
    limit.is_none_or(is_amount)
}

// Whether a break is of three amounts.
pub fn break_passes(rest: VehicleBreak) -> bool
    ensures { result ≡ rest_passes (Some rest) }
{
    is_amount(rest.earliest) && is_amount(rest.latest) && is_amount(rest.duration)
}

// Whether a vehicle's break is none or of three amounts.
fn rest_passes(rest: Option<VehicleBreak>) -> bool
    ensures { result ≡ rest_passes rest }
{
    rest.is_none_or(break_passes)
}

// Whether a cost per distance is an amount and is 0 or at least 1e-6.
fn cost_passes(x: f64) -> bool
    ensures { result ≡ cost_passes x }
{
    is_amount(x) && !(0.0 < x && x < 1e-6)
}

// Whether the vehicle's floats pass.
pub fn vehicle_passes(vehicle: Vehicle) -> bool
    ensures { result ≡ vehicle_passes vehicle }
{
    is_amount(vehicle.fixed_cost)
        && cost_passes(vehicle.cost_per_distance)
        && limit_passes(vehicle.max_distance)
        && limit_passes(vehicle.max_duration)
        && rest_passes(vehicle.rest)
}
