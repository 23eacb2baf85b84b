// What a route is worth: distance, duration, lateness and its cost, and the break, or that it does not pass.
ghost use Rattle.std.specs.Prelude.{◌≡◌};
ghost use Rattle.break_clock.specs.RouteEval.{eval_of, priced_distance};

use labels::Label;

#[derive(Clone, Copy)]
pub struct RouteEval {
    pub distance: f64,
    pub duration: f64,
    pub lateness: f64,
    pub lateness_cost: f64,
    pub rest: Option<(usize, f64)>,
}

impl RouteEval {
    // What a route comes to whose last label is this one, with the break as `rest` says.
    pub fn of(label: Label, distance: f64, duration: f64, rest: Option<(usize, f64)>) -> RouteEval
        ensures { result ≡ eval_of label distance duration rest }
    {
        RouteEval {
            distance,
            duration,
            lateness: label.lateness,
            lateness_cost: label.lateness_cost,
            rest,
        }
    }

    // The distance that the route is priced at: its distance and the cost of its lateness.
    pub fn priced_distance(self) -> f64
        ensures { result ≡ priced_distance self }
    {
        self.distance + self.lateness_cost
    }
}
