// Places: time windows, and what the evaluation of a route reads of a place (models/customer.rs).
ghost use Rattle.std.specs.Prelude.{◌≡◌};
ghost use Rattle.models.specs.TimeWindow.{time_window_new, contains, waiting_time, is_violated, lateness};

use float_functions::{is_finite, max};

// The time in which service at a place may start: an early vehicle waits until `ready`, and one that comes after `due` is late.
#[derive(Clone, Copy)]
pub struct TimeWindow {
    pub ready: f64,
    pub due: f64,
}

// What the evaluation of a route reads of a place. (Its demand is read where loads are summed.) A window with a penalty, the cost of one unit of lateness, is
// soft; one without is hard.
#[derive(Clone, Copy)]
pub struct Customer {
    pub service_duration: f64,
    pub time_window: Option<TimeWindow>,
    pub lateness_penalty: Option<f64>,
}

impl TimeWindow {
    // A window of two finite numbers, `ready` not above `due`; none otherwise.
    pub fn new(ready: f64, due: f64) -> Option<TimeWindow>
        ensures { result ≡ time_window_new ready due }
    {
        let ordered = is_finite(ready) && is_finite(due) && !(ready > due);
        ordered.then_some(TimeWindow { ready, due })
    }

    // Whether `time` lies in the window, its two ends included.
    pub fn contains(self, time: f64) -> bool
        ensures { result ≡ contains self time }
    {
        time >= self.ready && time <= self.due
    }

    // The wait until the window opens, 0 from then on.
    pub fn waiting_time(self, arrival: f64) -> f64
        ensures { result ≡ waiting_time self arrival }
    {
        if arrival < self.ready {
            self.ready - arrival
        } else {
            0.0
        }
    }

    // Whether the window has closed before `arrival`. Arrival exactly at `due` is in time.
    pub fn is_violated(self, arrival: f64) -> bool
        ensures { result ≡ is_violated self arrival }
    {
        arrival > self.due
    }

    // How long after the window's end `arrival` is, 0 up to its end.
    pub fn lateness(self, arrival: f64) -> f64
        ensures { result ≡ lateness self arrival }
    {
        max(arrival - self.due, 0.0)
    }
}
