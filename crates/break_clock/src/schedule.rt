// The clock of a route that carries a driver's break (evaluation/schedule.rs): two labels, one with the break still to take and one with it taken.
ghost use Rattle.std.specs.Prelude.{◌≡◌, ◌<◌, ◌≤◌};
ghost use Rattle.labels.specs.models.Problem.{Square};
ghost use Rattle.break_clock.specs.Schedule.{break_clock_new, clocked, push, finish_after, finish, set_out};

use crate::route_eval::RouteEval;
use labels::{
    DistanceMatrix, Label, Network, VehicleBreak, customer_at, lives, served_from, travel_time,
};

// The clock of a route that is extended one stop at a time. Each step takes the clock and hands the next one back, the break beside it.
#[derive(Clone, Copy)]
pub struct BreakClock {
    pub before: Option<Label>,
    pub after: Option<Label>,
    pub prev: usize,
    pub index: usize,
}

// The clock that two labels make, none where both are dead.
fn clocked(
    before: Option<Label>,
    after: Option<Label>,
    prev: usize,
    index: usize,
) -> Option<BreakClock>
    ensures { result ≡ clocked before after prev index }
{
    (lives(before) || lives(after)).then_some(BreakClock {
        before,
        after,
        prev,
        index,
    })
}

// The end of a route by the label after the break.
fn finish_after(after: Option<Label>, distance: f64, back: f64) -> Option<RouteEval>
    ensures { result ≡ finish_after after distance back }
{
    let l = after?;
    Some(RouteEval::of(l, distance, l.time + back, l.rest))
}

impl BreakClock {
    // The vehicle at the depot, at time 0.
    pub fn new(depot: usize) -> BreakClock
        ensures { result ≡ break_clock_new depot }
    {
        BreakClock {
            before: Some(Label::START),
            after: None,
            prev: depot,
            index: 0,
        }
    }

    // Drives on to stop c. None where no way of placing the break lets the vehicle serve the stops so far.
    #[tactic(auto, unfolding(crate::specs::Schedule::push))]
    pub fn push(self, rest: VehicleBreak, c: usize, net: &Network) -> Option<BreakClock>
        requires { (self.prev < net.now.roads.size) × (c < net.now.roads.size) × (self.index ≤ 256) }
        ensures { result ≡ push net.now.places net.now.roads rest self c }
    {
        let travel = travel_time(&net.roads, self.prev, c);
        let customer = customer_at(c, &net.places);
        let skipped = served_from(self.before, travel, self.index, None, customer);
        let here = served_from(self.before, travel, self.index, Some(rest), customer);
        let carried = served_from(self.after, travel, self.index, None, customer);
        clocked(skipped, Label::earlier(carried, here), c, self.index + 1)
    }

    // The route ended by the return to the depot, with `distance` in all. No break is taken where the vehicle is home by its
    // earliest; otherwise the label after the break decides.
    #[tactic(auto, unfolding(crate::specs::Schedule::finish))]
    pub fn finish(
        self,
        rest: VehicleBreak,
        distance: f64,
        depot: usize,
        roads: &DistanceMatrix,
    ) -> Option<RouteEval>
        requires square { Square roads.now }
        requires prev_lt_n { (self.prev < roads.now.size) × (depot < roads.now.size) }
        ensures { result ≡ finish roads.now rest depot self distance }
    {
        let back = travel_time(roads, self.prev, depot);
        let Some(l) = self.before else {
            return finish_after(self.after, distance, back);
        };
        let duration = l.time + back;
        if duration <= rest.earliest {
            return Some(RouteEval::of(l, distance, duration, None));
        }
        finish_after(self.after, distance, back)
    }
}

// A route with a break as far as it has been driven: its clock, and the distance so far.
#[derive(Clone, Copy)]
pub struct Riding {
    pub clock: BreakClock,
    pub distance: f64,
}

impl Riding {
    // At the depot, at time 0.
    pub fn new(depot: usize) -> Riding
        ensures { result ≡ set_out depot }
    {
        Riding {
            clock: BreakClock::new(depot),
            distance: 0.0,
        }
    }
}
