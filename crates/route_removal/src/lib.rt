// Whole routes taken out of a plan's two slices: one route, or all empty ones.
#![tactic(auto)]

ghost use Rattle.std.specs.Prelude.{◌≡◌, ◌∷◌, ◌++◌, [], ◌-◌, ◌<◌, length, get_or};
ghost use Rattle.route_exchange.specs.laws.Edits.{erase};
ghost use Rattle.route_exchange.specs.plan.Plan.{Holds, total, padded, drop_zero};
ghost use Rattle.route_exchange.specs.plan.Given.{plan_of, Keeps};

use route_exchange::routes::Routes;

// Of the crates below, passed on to those above.
pub use route_exchange::{copy_cells, copy_part, offset, routes};

// Route k is taken out: every later length moves one place left and the last becomes 0, every later stop moves left by the route's length.
pub fn erase_route(routes: &mut Routes, k: usize)
    requires { k < length routes.old.lengths.now }
    ensures rest { routes.new.lengths.now ≡ erase k routes.old.lengths.now ++ 0 ∷ [] }
    ensures plan { Holds (erase k (plan_of routes.old)) (total routes.old.lengths.now - get_or routes.old.lengths.now k 0)
        (erase k routes.old.lengths.now) routes.new.stops.now }
    ensures kept { Keeps routes.old routes.new }
{
    let used = routes.used();
    let at = routes.begins(k);
    let n = routes.lengths[k] as usize;
    route_exchange::cut(&mut routes.stops[..used], at, n);
    let lengths = &mut *routes.lengths;
    let count = lengths.len();
    route_exchange::cut(lengths, k, 1);
    lengths[count - 1] = 0;
}

// Empty routes are dropped: the other lengths come first, in order, and later ones become 0; the stops stay. Returns how many routes are left.
pub fn drop_empty(lengths: &mut [u16]) -> usize
    ensures rest { lengths.new ≡ padded (length lengths.old) (drop_zero lengths.old) }
    ensures count { result ≡ length (drop_zero lengths.old) }
{
    let mut r = 0;
    for k in 0..lengths.len() {
        let n = lengths[k];
        lengths[r] = n;
        r += usize::from(n != 0);
    }
    route_exchange::clear(&mut lengths[r..]);
    r
}
