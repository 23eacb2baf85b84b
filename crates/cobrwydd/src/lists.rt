// A list of calls in one: minimise and eliminate over one problem, each on the plan as the last one left it, with every answer and both slices
// after each call recorded. A call that returns another number than 0 changes nothing.
ghost use Rattle.worth_questions.specs.models.Problem.{problem};
ghost use Rattle.c_reports.specs.call_words.Words.{buffers};
ghost use Rattle.c_vehicle.specs.VehicleOf.{vehicle_of};
ghost use Rattle.cobrwydd.specs.Lists.{RanList};

use c_answers::Shape;
use c_reports::{Buffers, ran_code};
use c_vehicle::vehicle_of;
use worth_questions::{Customers, DistanceMatrix, Problem};

// The calls that `calls` and `tapes` ask for: six words of `calls` for each (kind, M, K, words of its tape, u16 and f64 work cells), the tapes one after the
// other. Four words of `answers` for each (refusal or 0, routes, steps, draws), and in `history` the lengths and stops after it. 102 where the words or
// the lengths do not fit together.
#[unsafe(no_mangle)]
pub extern "C" fn cobrwydd_run_calls(
    lengths: &mut [u16],
    stops: &mut [u16],
    work: &mut [u16],
    cells: &mut [f64],
    answers: &mut [u64],
    history: &mut [u16],
    calls: &[u64],
    tapes: &[u64],
    n: usize,
    demand: &[i32],
    service: &[f64],
    ready: &[f64],
    due: &[f64],
    penalty: &[f64],
    flags: &[u8],
    distances: &[f64],
    times: &[f64],
    capacity: i32,
    depot: usize,
    fixed_cost: f64,
    cost_per_distance: f64,
    given: u8,
    max_distance: f64,
    max_duration: f64,
    earliest: f64,
    latest: f64,
    duration: f64,
) -> u8
    ensures { RanList result given
        (problem n demand.now service.now ready.now due.now penalty.now flags.now distances.now times.now
        (vehicle_of capacity depot fixed_cost cost_per_distance given max_distance max_duration earliest latest duration)) calls.now tapes.now
        (buffers lengths.old stops.old work.old cells.old answers.old history.old)
        (buffers lengths.new stops.new work.new cells.new answers.new history.new) }
{
    if let Err(fault) = Shape::LIST.misfit(0, 0, given) {
        return fault.code();
    }
    let vehicle = vehicle_of(
        capacity,
        depot,
        fixed_cost,
        cost_per_distance,
        given,
        max_distance,
        max_duration,
        earliest,
        latest,
        duration,
    );
    let places = Customers {
        service,
        ready,
        due,
        penalty,
        flags,
    };
    let roads = DistanceMatrix {
        size: n,
        distances,
        times,
    };
    let problem = Problem {
        demand,
        places: &places,
        roads: &roads,
        vehicle,
    };
    let mut lent = Buffers {
        lengths,
        stops,
        work,
        cells,
        answers,
        history,
    };
    let ran = c_reports::run_calls(&mut lent, calls, tapes, &problem);
    ran_code(ran)
}
