// The entry checks: the refusal table (specs/Table.antt), and what a call that it does not refuse may rely on. The checks in code are in problem_checks,
// place_checks, length_checks, stop_checks, refusal_rows and refusals.
#![tactic(auto)]

ghost use Rattle.std.specs.Prelude.{◌≡◌, length};

// Of the crates below, passed on to those above.
pub use local_search::feasible::instance;
pub use local_search::{
    Problem, RouteEval, break_schedule_schedule, evaluation_check, route_cost_gain_floor,
    route_cost_route_distance, routes,
};
pub use refusal::Refusal;

// How many work cells a call is lent; no row asks what is in them.
#[derive(Clone, Copy)]
pub struct Work {
    pub u16_cells: usize,
    pub f64_cells: usize,
}

impl Work {
    // The cells of both slices.
    pub fn of(work: &[u16], cells: &[f64]) -> Work
        ensures { result ≡ record { u16_cells = length work.now; f64_cells = length cells.now } }
    {
        Work {
            u16_cells: work.len(),
            f64_cells: cells.len(),
        }
    }
}
