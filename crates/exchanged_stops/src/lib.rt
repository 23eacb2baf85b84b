// Two stops of two routes of a plan exchanged, in the plan's two slices.
#![tactic(auto)]

ghost use Rattle.std.specs.Prelude.{◌≡◌};
ghost use Rattle.plan.specs.Plan.{HasStop, total, exchange_stops};
ghost use Rattle.plan.specs.Given.{plan_of, Becomes};

use plan::routes::{Position, Routes};

// Of the crates below, passed on to those above.
pub use plan::{clear, copy_cells, copy_part, cut, offset, routes, swap_parts};

// The stop at one position and the stop at another one, of another route, are exchanged.
pub fn exchange_stops(routes: &mut Routes, a: Position, b: Position)
    requires other { a.route ≡ b.route → ⊥ }
    requires first { HasStop (plan_of routes.old) a.route a.pos }
    requires second { HasStop (plan_of routes.old) b.route b.pos }
    ensures { Becomes routes.old (exchange_stops a.route a.pos b.route b.pos (plan_of routes.old)) (total routes.old.lengths.now) routes.new }
{
    let p = routes.begins(a.route) + a.pos;
    let q = routes.begins(b.route) + b.pos;
    plan::swap(routes.stops, p, q);
}
