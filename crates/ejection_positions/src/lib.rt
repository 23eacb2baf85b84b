// The positions of what is kept of a route: the best of those where the popped stop goes in.
#![tactic(auto)]

ghost use Rattle.std.specs.Prelude.{◌≡◌, suc, ◌<◌, ◌≤◌, length};
ghost use Rattle.ejection.specs.laws.Loops.{loop};
ghost use Rattle.ejection.specs.models.Problem.{Stops};
ghost use Rattle.ejection.specs.route_times.Prepared.{held};
ghost use Rattle.ejection.specs.Eject.{try_left};
ghost use Rattle.ejection_positions.specs.Pass.{none_outranks, pass_in_kept};
ghost use Rattle.ejection.specs.evaluation.Given.{of_instance, of_fleet};

use ejection::{has_room, insertion_cost, may_pass, outranks};

// Of the crates below, passed on to those above.
pub use ejection::{
    Demand, Ejection, Fleet, Instance, Sought, Times, Vehicle, checked, fails_more, failure_sum,
    feasible, keep, keep_part, routes, within_capacity,
};

// Who leaves: the sum of their failures, the route and their two places in it, the same one twice where one stop leaves.
#[derive(Clone, Copy)]
pub struct Out {
    pub failed: u32,
    pub route: usize,
    pub first: usize,
    pub second: usize,
}

// One position of what is kept, which has room for c: the better of what it gives and the best so far.
#[tactic(auto, unfolding(crate::specs::Pass::pass_in_kept))]
fn try_in_kept(
    left: &[u16],
    times: &Times,
    out: Out,
    pos: usize,
    c: usize,
    best: Option<Ejection>,
    fleet: &Fleet,
) -> Option<Ejection>
    requires there { c < fleet.now.net.roads.size }
    requires within { pos ≤ length left.now }
    requires stops { Stops fleet.now.net.roads.size left.now }
    ensures { result ≡ pass_in_kept (of_fleet fleet.now) c out.failed out.route out.first out.second left.now
        (held (length left.now) times.now) pos best }
{
    let cost = insertion_cost(left, pos, c, fleet.vehicle.depot_id, &fleet.net.roads);
    if outranks(out.failed, cost, best)
        && may_pass(left, times.departures, times.latest, pos, c, fleet)
    {
        Some(Ejection {
            failed: out.failed,
            cost,
            route: out.route,
            first: out.first,
            second: out.second,
            pos,
        })
    } else {
        best
    }
}

// Every position of what is kept, which has room for c, its end too.
fn try_positions(
    left: &[u16],
    times: &Times,
    out: Out,
    c: usize,
    best: Option<Ejection>,
    fleet: &Fleet,
) -> Option<Ejection>
    requires there { c < fleet.now.net.roads.size }
    requires stops { Stops fleet.now.net.roads.size left.now }
    ensures { result ≡ loop (suc (length left.now))
        (pass_in_kept (of_fleet fleet.now) c out.failed out.route out.first out.second left.now (held (length left.now) times.now)) best }
{
    let mut found = best;
    for pos in 0..=left.len() {
        found = try_in_kept(left, times, out, pos, c, found, fleet);
    }
    found
}

// Whether no position of what is kept ranks before the best so far, whatever the tests say of it.
fn none_outranks(kept: &[u16], failed: u32, c: usize, best: Option<Ejection>, fleet: &Fleet) -> bool
    requires there { c < fleet.now.net.roads.size }
    requires stops { Stops fleet.now.net.roads.size kept.now }
    ensures { result ≡ none_outranks fleet.now.net.roads fleet.now.vehicle.depot_id c failed kept.now best }
{
    (0..kept.len() + 1).all(|pos| {
        let cost = insertion_cost(kept, pos, c, fleet.vehicle.depot_id, &fleet.net.roads);
        !outranks(failed, cost, best)
    })
}

// What is kept: the load test once, the departures and latest arrivals once where a position may rank first, then the positions.
pub fn try_left(
    times: &mut Times,
    left: &[u16],
    out: Out,
    c: usize,
    best: Option<Ejection>,
    given: &Instance,
) -> Option<Ejection>
    requires there { c < given.now.fleet.net.roads.size }
    requires stops { Stops given.now.fleet.net.roads.size left.now }
    ensures { result ≡ try_left (of_instance given.now) c out.failed out.route out.first out.second left.now best }
{
    if !has_room(left, c, &given.demand, given.fleet.vehicle)
        || none_outranks(left, out.failed, c, best, &given.fleet)
    {
        return best;
    }
    if times.prepare(left, &given.fleet) {
        try_positions(left, times, out, c, best, &given.fleet)
    } else {
        best
    }
}
