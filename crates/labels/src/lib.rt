// A label: the vehicle at a stop with its service done, or none where the stop cannot be served (evaluation/schedule.rs).
#![tactic(auto)]

ghost use Rattle.std.specs.Prelude.{◌≡◌};
ghost use Rattle.labels.specs.Labels.{serve_at, serve, served_from, sooner, earlier, lives};

// Of the crates below, passed on to those above.
pub use distance::{
    Customer, Customers, DistanceMatrix, Network, Problem, RouteLimits, TimeWindow, Vehicle,
    VehicleBreak, abs, customer_at, get, infinity, is_finite, is_penalised, is_windowed, largest,
    max, min, penalty_at, scale, total_less, travel_time, window_at,
};

// The vehicle at a stop with its service done. `rest` is the break, if taken: the index in the route of the stop that it comes before the service of, and its
// start.
#[derive(Clone, Copy)]
pub struct Label {
    pub time: f64,
    pub lateness: f64,
    pub lateness_cost: f64,
    pub rest: Option<(usize, f64)>,
}

// The wait for the window and the service, at a customer who can be served from `ready` on, with the break as `taken` says.
// None where a window without a penalty has closed.
#[tactic(auto, unfolding(crate::specs::Labels::serve_at))]
pub fn serve_at(
    label: Label,
    ready: f64,
    taken: Option<(usize, f64)>,
    customer: Customer,
) -> Option<Label>
    ensures { result ≡ serve_at label ready taken customer }
{
    let Some(tw) = customer.time_window else {
        return Some(Label {
            time: ready + customer.service_duration,
            rest: taken,
            ..label
        });
    };
    let time = ready + tw.waiting_time(ready) + customer.service_duration;
    if tw.is_violated(ready) {
        let penalty = customer.lateness_penalty?;
        let late = tw.lateness(ready);
        return Some(Label {
            time,
            lateness: label.lateness + late,
            lateness_cost: label.lateness_cost + penalty * late,
            rest: taken,
        });
    }
    Some(Label {
        time,
        rest: taken,
        ..label
    })
}

// The break as it was taken, made again: a copy of the whole would carry the bytes beside its tag from stop to stop.
fn kept(taken: Option<(usize, f64)>) -> Option<(usize, f64)>
    ensures { result ≡ taken }
{
    let (index, start) = taken?;
    Some((index, start))
}

// One stop of a label's route: the travel to it, the break first if there is one in `rest`, the wait and the service.
// None where the break cannot start by its latest.
#[tactic(auto, unfolding(crate::specs::Labels::serve))]
pub fn serve(
    label: Label,
    travel: f64,
    index: usize,
    rest: Option<VehicleBreak>,
    customer: Customer,
) -> Option<Label>
    ensures { result ≡ serve label travel index rest customer }
{
    let arrival = label.time + travel;
    let Some(pause) = rest else {
        return serve_at(label, arrival, kept(label.rest), customer);
    };
    let start = max(arrival, pause.earliest);
    if start > pause.latest {
        return None;
    }
    serve_at(
        label,
        start + pause.duration,
        Some((index, start)),
        customer,
    )
}

// The next stop of a label that may be dead: `and_then`.
pub fn served_from(
    from: Option<Label>,
    travel: f64,
    index: usize,
    rest: Option<VehicleBreak>,
    customer: Customer,
) -> Option<Label>
    ensures { result ≡ served_from from travel index rest customer }
{
    serve(from?, travel, index, rest, customer)
}

impl Label {
    // At the depot, at time 0, with no break taken.
    pub const START: Label = Label {
        time: 0.0,
        lateness: 0.0,
        lateness_cost: 0.0,
        rest: None,
    };

    // Whether y is done before x, by time and then by the cost of lateness.
    fn sooner(y: Label, x: Label) -> bool
        ensures { result ≡ sooner y x }
    {
        (y.time, y.lateness_cost) < (x.time, x.lateness_cost)
    }

    // The earlier of two labels, the first on a tie.
    pub fn earlier(a: Option<Label>, b: Option<Label>) -> Option<Label>
        ensures { result ≡ earlier a b }
    {
        let Some(x) = a else {
            return b;
        };
        let Some(y) = b else {
            return a;
        };
        if Label::sooner(y, x) { b } else { a }
    }
}

// Whether a label lives.
pub fn lives(s: Option<Label>) -> bool
    ensures { result ≡ lives s }
{
    s.is_some()
}
