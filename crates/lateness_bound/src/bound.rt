// The most that the lateness of any plan can cost (`lateness_bound` of evaluation/mod.rs).
ghost use Rattle.std.specs.Prelude.{◌≡◌, ◌≤◌, pos};
ghost use Rattle.std.specs.Float.{binary64};
ghost use Rattle.std.specs.Float.Ieee.{of_int};
ghost use Rattle.lateness_bound.specs.Bound.{with_window, with_penalty, latest_window, dearest_penalty, slowest, lateness_bound};

use route_worth::{Network, TimeWindow, has_soft_windows, largest, max, penalty_at, window_at};

// The larger of `most` and both ends of a window, if there is one.
fn with_window(most: f64, window: Option<TimeWindow>) -> f64
    ensures { result ≡ with_window most window }
{
    window.map_or(most, |tw| max(most, max(tw.ready, tw.due)))
}

// The larger of `most` and a penalty, if there is one.
fn with_penalty(most: f64, penalty: Option<f64>) -> f64
    ensures { result ≡ with_penalty most penalty }
{
    penalty.map_or(most, |each| max(most, each))
}

// The latest end of any window, 0 where there is none.
fn latest_window(net: &Network) -> f64
    ensures { result ≡ latest_window net.now.places.ready net.now.places.due net.now.places.flags }
{
    (0..net.places.len()).fold(0.0, |most, c| with_window(most, window_at(c, &net.places)))
}

// The dearest penalty of any place, with a window or without, 0 where there is none.
fn dearest_penalty(net: &Network) -> f64
    ensures { result ≡ dearest_penalty net.now.places.penalty net.now.places.flags }
{
    (0..net.places.len()).fold(
        0.0,
        |most, c| with_penalty(most, penalty_at(c, &net.places)),
    )
}

// The slowest travel between any two places, a place and itself included.
#[tactic(auto, using(crate::proofs::BoundLaws::slowest_laws))]
fn slowest(net: &Network) -> f64
    ensures { result ≡ slowest net.now.roads }
{
    if net.roads.times.is_empty() {
        largest(net.roads.distances)
    } else {
        largest(net.roads.times)
    }
}

// A number of places as a float, exactly.
fn count_as_float(n: usize) -> f64
    requires { n ≤ 256 }
    ensures { result ≡ of_int binary64 (pos n) }
{
    n as f64
}

// The bound, 0 where no window is soft.
#[tactic(auto, unfolding(crate::specs::Bound::lateness_bound))]
pub fn lateness_bound(net: &Network) -> f64
    ensures { result ≡ lateness_bound net.now.places net.now.roads }
{
    if has_soft_windows(net.places.flags) {
        let count = count_as_float(net.roads.size);
        let slow = slowest(net);
        let long = largest(net.places.service);
        let late = latest_window(net);
        let dear = dearest_penalty(net);
        return count * dear * (late + count * (slow + long));
    }
    0.0
}
