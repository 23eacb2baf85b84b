// Two stops of two routes exchanged, where both routes stay feasible.
#![tactic(auto)]

ghost use Rattle.std.specs.Prelude.{◌≡◌};
ghost use Rattle.exchanged_stops.specs.plan.Plan.{HasStop, total};
ghost use Rattle.exchanged_stops.specs.plan.Given.{plan_of, Becomes};
ghost use Rattle.perturbation.specs.local_search.Planned.{Planned};
ghost use Rattle.perturbation.specs.Perturb.{try_exchange};
ghost use Rattle.perturbation.specs.evaluation.Given.{of_instance};

use crate::check::both_feasible;
use exchanged_stops::exchange_stops;
use exchanged_stops::routes::{Position, Routes};

pub mod check;

// Of the crates below, passed on to those above.
pub use exchanged_stops::{copy_cells, routes};
pub use perturbation::draws::{Draws, other_than};
pub use perturbation::{Demand, Instance, Sought, Vehicle, eject, feasible, within_capacity};

// The stop at one position and the stop at another one, of another route, are exchanged; and exchanged back where one of the routes is not feasible then.
#[tactic(auto, using(crate::proofs::ExchangeLaws::exchanged_laws))]
pub fn try_exchange(routes: &mut Routes, a: Position, b: Position, given: &Instance)
    requires other { a.route ≡ b.route → ⊥ }
    requires first { HasStop (plan_of routes.old) a.route a.pos }
    requires second { HasStop (plan_of routes.old) b.route b.pos }
    requires planned { Planned given.now.fleet.net.roads.size (plan_of routes.old) }
    ensures { Becomes routes.old (try_exchange (of_instance given.now) a.route a.pos b.route b.pos (plan_of routes.old)) (total routes.old.lengths.now)
        routes.new }
{
    exchange_stops(routes, a, b);
    if !both_feasible(routes.each(), a.route, b.route, given) {
        exchange_stops(routes, a, b); // back
    }
}
