// The calls that change a plan, which is two slices: the routes' lengths, and their stops, route after route. What a call counts goes into `counts`:
// routes left, steps, draws. A call that returns another number than 0 leaves all of them as they were.
ghost use Rattle.std.specs.Prelude.{◌≡◌, length};
ghost use Rattle.worth_questions.specs.models.Problem.{problem};
ghost use Rattle.worth_questions.specs.ejection_pool.Running.{allowance};
ghost use Rattle.worth_questions.specs.planner.Calls.{public_minimise, public_eliminate};
ghost use Rattle.worth_questions.specs.planner.Told.{slices_of, work_of};
ghost use Rattle.c_vehicle.specs.VehicleOf.{vehicle_of};
ghost use Rattle.c_answers.specs.c_values.Said.{replies, plan_call, FreeIfDone};

use c_answers::{Shape, put_reply};
use c_vehicle::vehicle_of;
use worth_questions::{Customers, DistanceMatrix, Problem};

// Fewer routes by an ejection pool: at most `limit` steps in an attempt, draws from the tape, a clock that stops the call after `clock` steps.
#[unsafe(no_mangle)]
pub extern "C" fn cobrwydd_minimise(
    lengths: &mut [u16],
    stops: &mut [u16],
    work: &mut [u16],
    cells: &mut [f64],
    counts: &mut [u64],
    tape: &[u64],
    limit: u64,
    clock: u64,
    n: usize,
    demand: &[i32],
    service: &[f64],
    ready: &[f64],
    due: &[f64],
    penalty: &[f64],
    flags: &[u8],
    distances: &[f64],
    times: &[f64],
    capacity: i32,
    depot: usize,
    fixed_cost: f64,
    cost_per_distance: f64,
    given: u8,
    max_distance: f64,
    max_duration: f64,
    earliest: f64,
    latest: f64,
    duration: f64,
) -> u8
    ensures reply { replies result counts.new lengths.new stops.new ≡ plan_call given counts.old (slices_of lengths.old stops.old)
        (public_minimise (problem n demand.now service.now ready.now due.now penalty.now flags.now distances.now times.now
        (vehicle_of capacity depot fixed_cost cost_per_distance given max_distance max_duration earliest latest duration))
        (slices_of lengths.old stops.old) (allowance limit clock tape.now) (work_of (length work.old) (length cells.old))) }
    ensures work { FreeIfDone result work.old work.new }
    ensures cells { FreeIfDone result cells.old cells.new }
{
    if let Err(fault) = Shape::REPLY.misfit(0, counts.len(), given) {
        return fault.code();
    }
    let vehicle = vehicle_of(
        capacity,
        depot,
        fixed_cost,
        cost_per_distance,
        given,
        max_distance,
        max_duration,
        earliest,
        latest,
        duration,
    );
    let places = Customers {
        service,
        ready,
        due,
        penalty,
        flags,
    };
    let roads = DistanceMatrix {
        size: n,
        distances,
        times,
    };
    let problem = Problem {
        demand,
        places: &places,
        roads: &roads,
        vehicle,
    };
    let allowance = c_reports::Allowance { tape, limit, clock };
    let reply = c_reports::minimise(lengths, stops, work, cells, allowance, &problem);
    put_reply(counts, reply)
}

// Fewer routes where the others take a route's stops for less than it costs. Its steps and draws are 0.
#[unsafe(no_mangle)]
pub extern "C" fn cobrwydd_eliminate(
    lengths: &mut [u16],
    stops: &mut [u16],
    work: &mut [u16],
    cells: &[f64],
    counts: &mut [u64],
    n: usize,
    demand: &[i32],
    service: &[f64],
    ready: &[f64],
    due: &[f64],
    penalty: &[f64],
    flags: &[u8],
    distances: &[f64],
    times: &[f64],
    capacity: i32,
    depot: usize,
    fixed_cost: f64,
    cost_per_distance: f64,
    given: u8,
    max_distance: f64,
    max_duration: f64,
    earliest: f64,
    latest: f64,
    duration: f64,
) -> u8
    ensures reply { replies result counts.new lengths.new stops.new ≡ plan_call given counts.old (slices_of lengths.old stops.old)
        (public_eliminate (problem n demand.now service.now ready.now due.now penalty.now flags.now distances.now times.now
        (vehicle_of capacity depot fixed_cost cost_per_distance given max_distance max_duration earliest latest duration))
        (slices_of lengths.old stops.old) (work_of (length work.old) (length cells.now))) }
    ensures work { FreeIfDone result work.old work.new }
{
    if let Err(fault) = Shape::REPLY.misfit(0, counts.len(), given) {
        return fault.code();
    }
    let vehicle = vehicle_of(
        capacity,
        depot,
        fixed_cost,
        cost_per_distance,
        given,
        max_distance,
        max_duration,
        earliest,
        latest,
        duration,
    );
    let places = Customers {
        service,
        ready,
        due,
        penalty,
        flags,
    };
    let roads = DistanceMatrix {
        size: n,
        distances,
        times,
    };
    let problem = Problem {
        demand,
        places: &places,
        roads: &roads,
        vehicle,
    };
    let reply = c_reports::eliminate(lengths, stops, work, cells, &problem);
    put_reply(counts, reply)
}
