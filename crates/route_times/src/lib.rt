// The times along a route in work cells, for the quick test of its positions: when each stop is left, and how late each may be reached; both before
// the positions of the route are tried.
#![tactic(auto)]

ghost use Rattle.std.specs.Prelude.{◌≤◌, length};

use walked_times::{departures, latest_arrivals};

// Of the crates below, passed on to those above.
pub use walked_times::{
    Counts, Demand, DistanceMatrix, Fleet, Insertion, Instance, LocalSearchNext, Network, Pick,
    Reduction, Vehicle, checked, constrained, copy_cells, copy_part, feasible, has_room,
    insertion_cost, may_fit, pick_after, rounds, routes, trial_ok, within_capacity,
};

// The times along a route, in work cells: when each stop is left, and how late each may be reached. The first cells of the two are read, one for each
// stop.
#[derive(Drop)]
pub struct Times<'a> {
    pub departures: &'a mut [f64],
    pub latest: &'a mut [f64],
    pub ghost departures_room: { 256 ≤ length departures.now },
    pub ghost latest_room: { 256 ≤ length latest.now },
}

impl<'a> Times<'a> {
    ghost use Rattle.std.specs.Prelude.{◌≡◌, []};
    ghost use Rattle.walked_times.specs.models.Problem.{Stops};
    ghost use Rattle.walked_times.specs.quick_test.Quick.{departures, latest_arrivals, with_latest};
    ghost use Rattle.walked_times.specs.quick_test.Parts.{told};
    ghost use Rattle.walked_times.specs.evaluation.Given.{of_fleet};
    ghost use Rattle.route_times.specs.Prepared.{held, Keeps, Prepared};

    // The departures and the latest arrivals; false where one of the stops is reached after its window closes, and then the latest arrivals stay.
    fn keep_times(&mut self, route: &[u16], fleet: &Fleet) -> bool
        requires { Stops fleet.now.net.roads.size route.now }
        ensures told { with_latest (latest_arrivals fleet.now.net.places fleet.now.net.roads fleet.now.vehicle.depot_id route.now)
            (departures fleet.now.net.places fleet.now.net.roads fleet.now.vehicle.depot_id route.now)
            ≡ told result (held (length route.now) self.new) }
        ensures kept { Keeps self.old self.new }
    {
        let depot = fleet.vehicle.depot_id;
        if departures(self.departures, route, depot, &fleet.net) {
            latest_arrivals(self.latest, route, depot, &fleet.net);
            return true;
        }
        false
    }

    // Before the positions of a route are tried: where the check is needed, its departures and latest arrivals are kept, and the answer is
    // false where the departures miss a window. Where it is not needed nothing is done.
    pub fn prepare(&mut self, route: &[u16], fleet: &Fleet) -> bool
        requires { Stops fleet.now.net.roads.size route.now }
        ensures prepared { Prepared (of_fleet fleet.now) route.now result (held (length route.now) self.new) }
        ensures kept { Keeps self.old self.new }
    {
        if fleet.needed {
            return self.keep_times(route, fleet);
        }
        true
    }
}
