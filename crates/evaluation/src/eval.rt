// What a route is worth, or that it does not pass: an evaluation against the limits, and how far a route has been driven. The walk itself is in
// `route_drive`.
ghost use Rattle.std.specs.Prelude.{◌≡◌};
ghost use Rattle.evaluation.specs.Eval.{set_out, is_feasible, limited};

use break_schedule::{Label, RouteEval, RouteLimits};

// Whether there is an evaluation.
pub fn is_feasible(e: Option<RouteEval>) -> bool
    ensures { result ≡ is_feasible e }
{
    e.is_some()
}

// An evaluation that keeps the limits.
pub fn limited(e: Option<RouteEval>, limits: RouteLimits) -> Option<RouteEval>
    ensures { result ≡ limited limits e }
{
    e.filter(|x| limits.allow(x.distance, x.duration))
}

// A route as far as it has been driven: its label, the distance so far, and the last stop.
#[derive(Clone, Copy)]
pub struct Walk {
    pub label: Label,
    pub distance: f64,
    pub prev: usize,
}

impl Walk {
    // At the depot, at time 0.
    pub fn new(depot: usize) -> Walk
        ensures { result ≡ set_out depot }
    {
        Walk {
            label: Label::START,
            distance: 0.0,
            prev: depot,
        }
    }
}
