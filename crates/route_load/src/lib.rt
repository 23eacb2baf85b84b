// The load of a route against the capacity. The definitions of a feasible route, its load and its check, are in specs/, with their laws.
#![tactic(auto)]

ghost use Rattle.std.specs.Prelude.{◌≡◌, ◌<◌, ◌≤◌, length, nat_abs, ◌+ℤ◌};
ghost use Rattle.route_cost.specs.models.Problem.{of_demand, Stops};
ghost use Rattle.route_load.specs.Feasible.{demand_at, load, fits, has_room};

// Of the crates below, passed on to those above.
pub use route_cost::{
    Customer, Demand, DistanceMatrix, Fleet, Insertion, Instance, Network, Problem, RouteEval,
    RouteLimits, TimeWindow, Vehicle, abs, break_schedule_schedule, customer_at, evaluation_check,
    evaluation_route_feasible, gain_floor as route_cost_gain_floor, get, has_soft_windows,
    infinity, max, min, route_checks_needed, route_distance as route_cost_route_distance,
    travel_time, trial_feasible,
};

// The sum of the demands of a route.
pub fn load(route: &[u16], demand: &Demand) -> i32
    requires { Stops (length demand.now.cells.now) route.now }
    ensures { result ≡ load demand.now.cells.now route.now }
{
    let cells = demand.cells;
    let mut sum = 0;
    for c in route {
        sum += cells[*c as usize];
    }
    sum
}

// Whether a load and the demand of c are within capacity together.
pub fn has_room_for(sum: i32, c: usize, demand: &Demand, vehicle: Vehicle) -> bool
    requires there { c < length demand.now.cells.now }
    requires small { nat_abs sum ≤ 256_000_000 }
    ensures { result ≡ fits (of_demand demand.now.cells.now vehicle) (sum +ℤ demand_at demand.now.cells.now c) }
{
    sum + demand.cells[c] <= vehicle.capacity
}

// Whether a route has room for c.
pub fn has_room(route: &[u16], c: usize, demand: &Demand, vehicle: Vehicle) -> bool
    requires { Stops (length demand.now.cells.now) route.now × (c < length demand.now.cells.now) }
    ensures { result ≡ has_room (of_demand demand.now.cells.now vehicle) route.now c }
{
    has_room_for(load(route, demand), c, demand, vehicle)
}

// Whether a route's load is within capacity.
pub fn within_capacity(route: &[u16], demand: &Demand, vehicle: Vehicle) -> bool
    requires { Stops (length demand.now.cells.now) route.now }
    ensures { result ≡ fits (of_demand demand.now.cells.now vehicle) (load demand.now.cells.now route.now) }
{
    load(route, demand) <= vehicle.capacity
}
