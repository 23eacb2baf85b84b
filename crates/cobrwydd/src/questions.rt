// The questions about one route or about the problem. What each answers goes into the slices `out` and `found`; a call that returns another number
// than 0 leaves both as they were.
ghost use Rattle.std.specs.Prelude.{◌≡◌, []};
ghost use Rattle.worth_questions.specs.models.Vehicle.{vehicle_break_new};
ghost use Rattle.worth_questions.specs.models.Problem.{problem};
ghost use Rattle.worth_questions.specs.planner.Calls.{answered, public_route_feasible, public_route_eval, public_effective_cost, public_schedule, public_route_distance, public_lateness_bound, public_gain_floor, public_time_window_new};
ghost use Rattle.c_vehicle.specs.VehicleOf.{vehicle_of};
ghost use Rattle.c_answers.specs.c_values.Said.{values, says, question, checked_values, number_values, eval_values, window_values};

use c_answers::{Shape, put_checked, put_evaluated, put_number, put_window};
use c_vehicle::vehicle_of;
use worth_questions::{Customers, DistanceMatrix, Problem, VehicleBreak};

// Whether a route passes the check: found[0].
#[unsafe(no_mangle)]
pub extern "C" fn cobrwydd_route_feasible(
    found: &mut [u64],
    route: &[u16],
    n: usize,
    demand: &[i32],
    service: &[f64],
    ready: &[f64],
    due: &[f64],
    penalty: &[f64],
    flags: &[u8],
    distances: &[f64],
    times: &[f64],
    capacity: i32,
    depot: usize,
    fixed_cost: f64,
    cost_per_distance: f64,
    given: u8,
    max_distance: f64,
    max_duration: f64,
    earliest: f64,
    latest: f64,
    duration: f64,
) -> u8
    ensures { says result [] found.new ≡ question checked_values 0 1 given (values [] found.old)
        (public_route_feasible (problem n demand.now service.now ready.now due.now penalty.now flags.now distances.now times.now
        (vehicle_of capacity depot fixed_cost cost_per_distance given max_distance max_duration earliest latest duration)) route.now) }
{
    if let Err(fault) = Shape::CHECKED.misfit(0, found.len(), given) {
        return fault.code();
    }
    let vehicle = vehicle_of(
        capacity,
        depot,
        fixed_cost,
        cost_per_distance,
        given,
        max_distance,
        max_duration,
        earliest,
        latest,
        duration,
    );
    let places = Customers {
        service,
        ready,
        due,
        penalty,
        flags,
    };
    let roads = DistanceMatrix {
        size: n,
        distances,
        times,
    };
    let problem = Problem {
        demand,
        places: &places,
        roads: &roads,
        vehicle,
    };
    let answer = worth_questions::planner_questions_route_feasible(route, &problem);
    put_checked(found, answer)
}

// The evaluation of a route, within the vehicle's limits and with its break.
#[unsafe(no_mangle)]
pub extern "C" fn cobrwydd_route_eval(
    out: &mut [f64],
    found: &mut [u64],
    route: &[u16],
    n: usize,
    demand: &[i32],
    service: &[f64],
    ready: &[f64],
    due: &[f64],
    penalty: &[f64],
    flags: &[u8],
    distances: &[f64],
    times: &[f64],
    capacity: i32,
    depot: usize,
    fixed_cost: f64,
    cost_per_distance: f64,
    given: u8,
    max_distance: f64,
    max_duration: f64,
    earliest: f64,
    latest: f64,
    duration: f64,
) -> u8
    ensures { says result out.new found.new ≡ question eval_values 5 3 given (values out.old found.old)
        (public_route_eval (problem n demand.now service.now ready.now due.now penalty.now flags.now distances.now times.now
        (vehicle_of capacity depot fixed_cost cost_per_distance given max_distance max_duration earliest latest duration)) route.now) }
{
    if let Err(fault) = Shape::EVALUATED.misfit(out.len(), found.len(), given) {
        return fault.code();
    }
    let vehicle = vehicle_of(
        capacity,
        depot,
        fixed_cost,
        cost_per_distance,
        given,
        max_distance,
        max_duration,
        earliest,
        latest,
        duration,
    );
    let places = Customers {
        service,
        ready,
        due,
        penalty,
        flags,
    };
    let roads = DistanceMatrix {
        size: n,
        distances,
        times,
    };
    let problem = Problem {
        demand,
        places: &places,
        roads: &roads,
        vehicle,
    };
    let answer = worth_questions::route_eval(route, &problem);
    put_evaluated(out, found, answer)
}

// What a route costs with its lateness: out[0], infinite where it does not pass.
#[unsafe(no_mangle)]
pub extern "C" fn cobrwydd_effective_cost(
    out: &mut [f64],
    route: &[u16],
    n: usize,
    demand: &[i32],
    service: &[f64],
    ready: &[f64],
    due: &[f64],
    penalty: &[f64],
    flags: &[u8],
    distances: &[f64],
    times: &[f64],
    capacity: i32,
    depot: usize,
    fixed_cost: f64,
    cost_per_distance: f64,
    given: u8,
    max_distance: f64,
    max_duration: f64,
    earliest: f64,
    latest: f64,
    duration: f64,
) -> u8
    ensures { says result out.new [] ≡ question number_values 1 0 given (values out.old [])
        (public_effective_cost (problem n demand.now service.now ready.now due.now penalty.now flags.now distances.now times.now
        (vehicle_of capacity depot fixed_cost cost_per_distance given max_distance max_duration earliest latest duration)) route.now) }
{
    if let Err(fault) = Shape::NUMBER.misfit(out.len(), 0, given) {
        return fault.code();
    }
    let vehicle = vehicle_of(
        capacity,
        depot,
        fixed_cost,
        cost_per_distance,
        given,
        max_distance,
        max_duration,
        earliest,
        latest,
        duration,
    );
    let places = Customers {
        service,
        ready,
        due,
        penalty,
        flags,
    };
    let roads = DistanceMatrix {
        size: n,
        distances,
        times,
    };
    let problem = Problem {
        demand,
        places: &places,
        roads: &roads,
        vehicle,
    };
    let answer = worth_questions::effective_cost(route, &problem);
    put_number(out, answer)
}

// The schedule of a route with the break that is given beside the vehicle, without limits.
#[unsafe(no_mangle)]
pub extern "C" fn cobrwydd_schedule(
    out: &mut [f64],
    found: &mut [u64],
    route: &[u16],
    break_earliest: f64,
    break_latest: f64,
    break_duration: f64,
    n: usize,
    demand: &[i32],
    service: &[f64],
    ready: &[f64],
    due: &[f64],
    penalty: &[f64],
    flags: &[u8],
    distances: &[f64],
    times: &[f64],
    capacity: i32,
    depot: usize,
    fixed_cost: f64,
    cost_per_distance: f64,
    given: u8,
    max_distance: f64,
    max_duration: f64,
    earliest: f64,
    latest: f64,
    duration: f64,
) -> u8
    ensures { says result out.new found.new ≡ question eval_values 5 3 given (values out.old found.old)
        (public_schedule (problem n demand.now service.now ready.now due.now penalty.now flags.now distances.now times.now
        (vehicle_of capacity depot fixed_cost cost_per_distance given max_distance max_duration earliest latest duration))
        (vehicle_break_new break_earliest break_latest break_duration) route.now) }
{
    if let Err(fault) = Shape::EVALUATED.misfit(out.len(), found.len(), given) {
        return fault.code();
    }
    let vehicle = vehicle_of(
        capacity,
        depot,
        fixed_cost,
        cost_per_distance,
        given,
        max_distance,
        max_duration,
        earliest,
        latest,
        duration,
    );
    let places = Customers {
        service,
        ready,
        due,
        penalty,
        flags,
    };
    let roads = DistanceMatrix {
        size: n,
        distances,
        times,
    };
    let problem = Problem {
        demand,
        places: &places,
        roads: &roads,
        vehicle,
    };
    let rest = VehicleBreak::new(break_earliest, break_latest, break_duration);
    let answer = worth_questions::planner_questions_schedule(route, rest, &problem);
    put_evaluated(out, found, answer)
}

// The distance of a route: out[0].
#[unsafe(no_mangle)]
pub extern "C" fn cobrwydd_route_distance(
    out: &mut [f64],
    route: &[u16],
    n: usize,
    demand: &[i32],
    service: &[f64],
    ready: &[f64],
    due: &[f64],
    penalty: &[f64],
    flags: &[u8],
    distances: &[f64],
    times: &[f64],
    capacity: i32,
    depot: usize,
    fixed_cost: f64,
    cost_per_distance: f64,
    given: u8,
    max_distance: f64,
    max_duration: f64,
    earliest: f64,
    latest: f64,
    duration: f64,
) -> u8
    ensures { says result out.new [] ≡ question number_values 1 0 given (values out.old [])
        (public_route_distance (problem n demand.now service.now ready.now due.now penalty.now flags.now distances.now times.now
        (vehicle_of capacity depot fixed_cost cost_per_distance given max_distance max_duration earliest latest duration)) route.now) }
{
    if let Err(fault) = Shape::NUMBER.misfit(out.len(), 0, given) {
        return fault.code();
    }
    let vehicle = vehicle_of(
        capacity,
        depot,
        fixed_cost,
        cost_per_distance,
        given,
        max_distance,
        max_duration,
        earliest,
        latest,
        duration,
    );
    let places = Customers {
        service,
        ready,
        due,
        penalty,
        flags,
    };
    let roads = DistanceMatrix {
        size: n,
        distances,
        times,
    };
    let problem = Problem {
        demand,
        places: &places,
        roads: &roads,
        vehicle,
    };
    let answer = worth_questions::planner_questions_route_distance(route, &problem);
    put_number(out, answer)
}

// The bound on the lateness cost of a route: out[0].
#[unsafe(no_mangle)]
pub extern "C" fn cobrwydd_lateness_bound(
    out: &mut [f64],
    n: usize,
    demand: &[i32],
    service: &[f64],
    ready: &[f64],
    due: &[f64],
    penalty: &[f64],
    flags: &[u8],
    distances: &[f64],
    times: &[f64],
    capacity: i32,
    depot: usize,
    fixed_cost: f64,
    cost_per_distance: f64,
    given: u8,
    max_distance: f64,
    max_duration: f64,
    earliest: f64,
    latest: f64,
    duration: f64,
) -> u8
    ensures { says result out.new [] ≡ question number_values 1 0 given (values out.old [])
        (public_lateness_bound (problem n demand.now service.now ready.now due.now penalty.now flags.now distances.now times.now
        (vehicle_of capacity depot fixed_cost cost_per_distance given max_distance max_duration earliest latest duration))) }
{
    if let Err(fault) = Shape::NUMBER.misfit(out.len(), 0, given) {
        return fault.code();
    }
    let vehicle = vehicle_of(
        capacity,
        depot,
        fixed_cost,
        cost_per_distance,
        given,
        max_distance,
        max_duration,
        earliest,
        latest,
        duration,
    );
    let places = Customers {
        service,
        ready,
        due,
        penalty,
        flags,
    };
    let roads = DistanceMatrix {
        size: n,
        distances,
        times,
    };
    let problem = Problem {
        demand,
        places: &places,
        roads: &roads,
        vehicle,
    };
    let answer = problem_questions::lateness_bound(&problem);
    put_number(out, answer)
}

// The least gain that counts as one: out[0].
#[unsafe(no_mangle)]
pub extern "C" fn cobrwydd_gain_floor(
    out: &mut [f64],
    n: usize,
    demand: &[i32],
    service: &[f64],
    ready: &[f64],
    due: &[f64],
    penalty: &[f64],
    flags: &[u8],
    distances: &[f64],
    times: &[f64],
    capacity: i32,
    depot: usize,
    fixed_cost: f64,
    cost_per_distance: f64,
    given: u8,
    max_distance: f64,
    max_duration: f64,
    earliest: f64,
    latest: f64,
    duration: f64,
) -> u8
    ensures { says result out.new [] ≡ question number_values 1 0 given (values out.old [])
        (public_gain_floor (problem n demand.now service.now ready.now due.now penalty.now flags.now distances.now times.now
        (vehicle_of capacity depot fixed_cost cost_per_distance given max_distance max_duration earliest latest duration))) }
{
    if let Err(fault) = Shape::NUMBER.misfit(out.len(), 0, given) {
        return fault.code();
    }
    let vehicle = vehicle_of(
        capacity,
        depot,
        fixed_cost,
        cost_per_distance,
        given,
        max_distance,
        max_duration,
        earliest,
        latest,
        duration,
    );
    let places = Customers {
        service,
        ready,
        due,
        penalty,
        flags,
    };
    let roads = DistanceMatrix {
        size: n,
        distances,
        times,
    };
    let problem = Problem {
        demand,
        places: &places,
        roads: &roads,
        vehicle,
    };
    let answer = problem_questions::gain_floor(&problem);
    put_number(out, answer)
}

// A window of two finite numbers in order: found[0] says whether there is one, out has its ends. It is never refused.
#[unsafe(no_mangle)]
pub extern "C" fn cobrwydd_time_window_new(
    out: &mut [f64],
    found: &mut [u64],
    ready: f64,
    due: f64,
) -> u8
    ensures { says result out.new found.new ≡ question window_values 2 1 0 (values out.old found.old) (answered (public_time_window_new ready due)) }
{
    if let Err(fault) = Shape::WINDOW.misfit(out.len(), found.len(), 0) {
        return fault.code();
    }
    let window = problem_questions::time_window_new(ready, due);
    put_window(out, found, window)
}
