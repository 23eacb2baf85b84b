// One stored case: a problem, a first plan and calls, each on the plan as the last one left it. A case is N, the vehicle, the slices demand, flags, service,
// ready, due, penalty, distances, times, lengths and stops, the number of calls, and the calls (crate replayed_calls). Floats stand by their bits, demand and
// capacity by their two's complement of 32 bits. The vehicle is capacity, depot, fixed cost, cost per distance, and after a 0 or 1 that says whether it is
// there the distance limit, the duration limit and the break (earliest, latest, duration); a value that is not there is 0.
ghost use Rattle.replayed_calls.specs.tally.Tally.{Counted};

use replayed_calls::{
    Customers, DistanceMatrix, Numbers, PLAN, Problem, Tally, Vehicle, VehicleBreak, call_at,
};

// Room for what is said of each place.
const PLACES: usize = 16;

// Room for a matrix.
const MATRIX: usize = 160;

fn limit_at(numbers: &mut Numbers) -> Option<Option<f64>> {
    let given = numbers.read::<bool>()?;
    let most = numbers.read::<f64>()?;
    Some(given.then_some(most))
}

fn rest_at(numbers: &mut Numbers) -> Option<Option<VehicleBreak>> {
    let given = numbers.read::<bool>()?;
    let rest = VehicleBreak {
        earliest: numbers.read()?,
        latest: numbers.read()?,
        duration: numbers.read()?,
    };
    Some(given.then_some(rest))
}

fn vehicle_at(numbers: &mut Numbers) -> Option<Vehicle> {
    Some(Vehicle {
        capacity: numbers.read()?,
        depot_id: numbers.read()?,
        fixed_cost: numbers.read()?,
        cost_per_distance: numbers.read()?,
        max_distance: limit_at(numbers)?,
        max_duration: limit_at(numbers)?,
        rest: rest_at(numbers)?,
    })
}

// So many calls.
fn calls_at(
    numbers: &mut Numbers,
    count: u64,
    lengths: &mut [u16],
    stops: &mut [u16],
    tally: &mut Tally,
    problem: &Problem,
) -> Option<()>
    ensures { Counted tally.old tally.new }
{
    for _ in 0..count {
        call_at(numbers, lengths, stops, tally, problem)?;
    }
    Some(())
}

// A plan and its calls.
fn plan_at(numbers: &mut Numbers, tally: &mut Tally, problem: &Problem) -> Option<()>
    ensures { Counted tally.old tally.new }
{
    let mut lengths_room = [0u16; PLAN];
    let lengths = numbers.fill(&mut lengths_room)?;
    let mut stops_room = [0u16; PLAN];
    let stops = numbers.fill(&mut stops_room)?;
    let count = numbers.next()?;
    calls_at(numbers, count, lengths, stops, tally, problem)
}

// The matrices, then the plan and its calls.
fn matrices_at(
    numbers: &mut Numbers,
    tally: &mut Tally,
    n: usize,
    vehicle: Vehicle,
    demand: &[i32],
    places: &Customers,
) -> Option<()>
    ensures { Counted tally.old tally.new }
{
    let mut distances_room = [0.0; MATRIX];
    let distances = numbers.fill(&mut distances_room)?;
    let mut times_room = [0.0; MATRIX];
    let times = numbers.fill(&mut times_room)?;
    let roads = DistanceMatrix {
        size: n,
        distances,
        times,
    };
    let problem = Problem {
        demand,
        places,
        roads: &roads,
        vehicle,
    };
    plan_at(numbers, tally, &problem)
}

// Windows and penalties, then the rest.
fn windows_at(
    numbers: &mut Numbers,
    tally: &mut Tally,
    n: usize,
    vehicle: Vehicle,
    demand: &[i32],
    flags: &[u8],
    service: &[f64],
) -> Option<()>
    ensures { Counted tally.old tally.new }
{
    let mut ready_room = [0.0; PLACES];
    let ready = numbers.fill(&mut ready_room)?;
    let mut due_room = [0.0; PLACES];
    let due = numbers.fill(&mut due_room)?;
    let mut penalty_room = [0.0; PLACES];
    let penalty = numbers.fill(&mut penalty_room)?;
    let places = Customers {
        service,
        ready,
        due,
        penalty,
        flags,
    };
    matrices_at(numbers, tally, n, vehicle, demand, &places)
}

// One case, whose calls are counted as far as they are of the form.
pub fn case_at(numbers: &mut Numbers, tally: &mut Tally) -> Option<()>
    ensures { Counted tally.old tally.new }
{
    let n = numbers.read::<usize>()?;
    let vehicle = vehicle_at(numbers)?;
    let mut demand_room = [0i32; PLACES];
    let demand = numbers.fill(&mut demand_room)?;
    let mut flags_room = [0u8; PLACES];
    let flags = numbers.fill(&mut flags_room)?;
    let mut service_room = [0.0; PLACES];
    let service = numbers.fill(&mut service_room)?;
    windows_at(numbers, tally, n, vehicle, demand, flags, service)
}
