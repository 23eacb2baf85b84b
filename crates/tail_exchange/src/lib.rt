// Two tails of two routes exchanged, where both routes are feasible then and neither is empty.
#![tactic(auto)]

ghost use Rattle.std.specs.Prelude.{◌≡◌, ◌&&◌, ◌≤◌, length};
ghost use Rattle.route_exchange.specs.plan.Plan.{HasPosition, total};
ghost use Rattle.route_exchange.specs.plan.Given.{plan_of, routes_left, Becomes};
ghost use Rattle.joined_tails.specs.local_search.Planned.{Planned};
ghost use Rattle.joined_tails.specs.perturbation.Perturb.{try_tails};
ghost use Rattle.joined_tails.specs.perturbation.Parts.{joined_stands};
ghost use Rattle.joined_tails.specs.evaluation.Given.{of_instance};

use joined_tails::routes::{EachRoute, Position, Routes};
use joined_tails::{joined_stands, joined_within};
use route_exchange::exchange_tails;

// Of the crates below, passed on to those above.
pub use joined_tails::{
    Demand, Draws, Instance, Sought, Vehicle, eject, other_than, routes, try_exchange,
};

// Whether both routes stand after the tails from two positions are exchanged: a check is made only where both loads are within capacity.
#[tactic(auto, using(crate::proofs::TailLaws::both_laws))]
fn both_joined(
    routes: EachRoute,
    work: &mut [u16],
    a: Position,
    b: Position,
    given: &Instance,
) -> bool
    requires other { a.route ≡ b.route → ⊥ }
    requires first { HasPosition (routes_left routes) a.route a.pos }
    requires second { HasPosition (routes_left routes) b.route b.pos }
    requires has_room { total routes.lengths.now ≤ length work.old }
    requires planned { Planned given.now.fleet.net.roads.size (routes_left routes) }
    ensures { result ≡ (joined_stands (of_instance given.now) a.route a.pos b.route b.pos (routes_left routes.entry)
        && joined_stands (of_instance given.now) b.route b.pos a.route a.pos (routes_left routes.entry)) }
{
    joined_within(routes, work, a, b, given.fleet.vehicle, &given.demand)
        && joined_stands(routes, work, b, a, given)
        && joined_stands(routes, work, a, b, given)
}

// The tails of two routes from a position each, the routes not the same, are exchanged where both routes stand then. The work cells are free.
#[tactic(auto, using(crate::proofs::TailLaws::tails_laws))]
pub fn try_tails(routes: &mut Routes, work: &mut [u16], a: Position, b: Position, given: &Instance)
    requires other { a.route ≡ b.route → ⊥ }
    requires first { HasPosition (plan_of routes.old) a.route a.pos }
    requires second { HasPosition (plan_of routes.old) b.route b.pos }
    requires has_room { length routes.old.stops.now ≤ length work.old }
    requires planned { Planned given.now.fleet.net.roads.size (plan_of routes.old) }
    ensures { Becomes routes.old (try_tails (of_instance given.now) a.route a.pos b.route b.pos (plan_of routes.old)) (total routes.old.lengths.now)
        routes.new }
{
    if both_joined(routes.each(), work, a, b, given) {
        exchange_tails(routes, work, a, b);
    }
}
