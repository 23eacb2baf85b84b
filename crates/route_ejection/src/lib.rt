// The best ejection out of one route (local_search/route_minimization.rs, `Pool::eject`): one stop leaves, or two, and what is kept takes the stop in.
#![tactic(auto)]

ghost use Rattle.std.specs.Prelude.{◌≡◌, ◌<◌, ◌≤◌, length};
ghost use Rattle.ejection_positions.specs.ejection.Eject.{try_out, try_one, try_two_from, try_two};
ghost use Rattle.ejection_positions.specs.models.Problem.{Stops};
ghost use Rattle.ejection_positions.specs.evaluation.Given.{of_instance};

use ejection_positions::{Out, fails_more, failure_sum, keep_part, try_left};

// Of the crates below, passed on to those above.
pub use ejection_positions::{
    Demand, Ejection, Fleet, Instance, Sought, Times, Vehicle, checked, feasible, routes,
    within_capacity,
};

// The stops at i and j leave route k: first their failures alone, then what is kept.
fn try_out(
    work: &mut [u16],
    times: &mut Times,
    sought: &Sought,
    route: &[u16],
    k: usize,
    i: usize,
    j: usize,
    best: Option<Ejection>,
) -> Option<Ejection>
    requires stops { Stops sought.now.given.now.fleet.net.roads.size route.now }
    requires room { length route.now ≤ length work.old }
    requires leave { (i ≤ j) × (j < length route.now) }
    ensures { result ≡ try_out (of_instance sought.now.given.now) sought.now.c sought.now.failures.now k route.now i j best }
{
    let failed = failure_sum(sought.failures, route, i, j);
    if fails_more(failed, best) {
        return best;
    }
    let left = keep_part(work, route, i, j);
    let out = Out {
        failed,
        route: k,
        first: i,
        second: j,
    };
    try_left(times, left, out, sought.c, best, sought.given)
}

// One stop leaves route k.
pub fn try_one(
    work: &mut [u16],
    times: &mut Times,
    sought: &Sought,
    route: &[u16],
    k: usize,
    best: Option<Ejection>,
) -> Option<Ejection>
    requires stops { Stops sought.now.given.now.fleet.net.roads.size route.now }
    requires room { length route.now ≤ length work.old }
    ensures { result ≡ try_one (of_instance sought.now.given.now) sought.now.c sought.now.failures.now k route.now best }
{
    let mut found = best;
    for i in 0..route.len() {
        found = try_out(work, times, sought, route, k, i, i, found);
    }
    found
}

// The stop at i and a later one leave route k.
fn try_two_from(
    work: &mut [u16],
    times: &mut Times,
    sought: &Sought,
    route: &[u16],
    k: usize,
    i: usize,
    best: Option<Ejection>,
) -> Option<Ejection>
    requires stops { Stops sought.now.given.now.fleet.net.roads.size route.now }
    requires room { length route.now ≤ length work.old }
    requires leaves { i < length route.now }
    ensures { result ≡ try_two_from (of_instance sought.now.given.now) sought.now.c sought.now.failures.now k route.now i best }
{
    let mut found = best;
    for j in i + 1..route.len() {
        found = try_out(work, times, sought, route, k, i, j, found);
    }
    found
}

// Two stops leave route k.
pub fn try_two(
    work: &mut [u16],
    times: &mut Times,
    sought: &Sought,
    route: &[u16],
    k: usize,
    best: Option<Ejection>,
) -> Option<Ejection>
    requires stops { Stops sought.now.given.now.fleet.net.roads.size route.now }
    requires room { length route.now ≤ length work.old }
    ensures { result ≡ try_two (of_instance sought.now.given.now) sought.now.c sought.now.failures.now k route.now best }
{
    let mut found = best;
    for i in 0..route.len() {
        found = try_two_from(work, times, sought, route, k, i, found);
    }
    found
}
