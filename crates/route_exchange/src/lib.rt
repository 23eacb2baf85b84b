// The tails of two routes of a plan exchanged, in the plan's two slices.
#![tactic(auto)]

ghost use Rattle.std.specs.Prelude.{◌≡◌, ◌≤◌, ◌<◌, length};
ghost use Rattle.exchanged_stops.specs.plan.Plan.{HasPosition, total, exchange_tails};
ghost use Rattle.exchanged_stops.specs.plan.Given.{plan_of, Becomes};

use exchanged_stops::routes::{Position, Routes};

// Of the crates below, passed on to those above.
pub use exchanged_stops::{clear, copy_cells, copy_part, cut, offset, routes};

// The tail of route a from its position and the tail of route b, a later one, are exchanged.
fn exchange_in_order(routes: &mut Routes, work: &mut [u16], a: Position, b: Position)
    requires in_order { a.route < b.route }
    requires first { HasPosition (plan_of routes.old) a.route a.pos }
    requires second { HasPosition (plan_of routes.old) b.route b.pos }
    requires has_room { length routes.old.stops.now ≤ length work.old }
    ensures { Becomes routes.old (exchange_tails a.route a.pos b.route b.pos (plan_of routes.old)) (total routes.old.lengths.now) routes.new }
{
    let m = routes.lengths[a.route] as usize;
    let n = routes.lengths[b.route] as usize;
    let p = routes.begins(a.route);
    let q = routes.begins(b.route);
    exchanged_stops::swap_parts(routes.stops, work, p + a.pos, p + m, q + b.pos, q + n);
    let lengths = &mut *routes.lengths;
    lengths[a.route] = (a.pos + (n - b.pos)) as u16;
    lengths[b.route] = (b.pos + (m - a.pos)) as u16;
}

// The tails of two routes from a position each, the routes not the same, are exchanged. The work cells are free.
pub fn exchange_tails(routes: &mut Routes, work: &mut [u16], a: Position, b: Position)
    requires other { a.route ≡ b.route → ⊥ }
    requires first { HasPosition (plan_of routes.old) a.route a.pos }
    requires second { HasPosition (plan_of routes.old) b.route b.pos }
    requires has_room { length routes.old.stops.now ≤ length work.old }
    ensures { Becomes routes.old (exchange_tails a.route a.pos b.route b.pos (plan_of routes.old)) (total routes.old.lengths.now) routes.new }
{
    if a.route < b.route {
        exchange_in_order(routes, work, a, b);
        return;
    }
    exchange_in_order(routes, work, b, a);
}
