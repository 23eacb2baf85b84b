// The front of one route with the tail of another behind it, joined in the work cells: whether its load is within capacity, and whether it stands
// (local_search/route_minimization.rs, `Pool::perturb`).
#![tactic(auto)]

ghost use Rattle.std.specs.Prelude.{◌≡◌, ◌≤◌, length};
ghost use Rattle.stop_exchange.specs.models.Problem.{of_demand};
ghost use Rattle.stop_exchange.specs.plan.Plan.{HasPosition, total};
ghost use Rattle.stop_exchange.specs.plan.Given.{routes_left};
ghost use Rattle.stop_exchange.specs.route_load.Feasible.{load, fits};
ghost use Rattle.stop_exchange.specs.local_search.Planned.{Planned};
ghost use Rattle.stop_exchange.specs.perturbation.Parts.{joined, joined_stands};
ghost use Rattle.stop_exchange.specs.evaluation.Given.{of_instance};

use stop_exchange::routes::{EachRoute, Position};
use stop_exchange::{copy_cells, feasible, within_capacity};

// Of the crates below, passed on to those above.
pub use stop_exchange::{
    Demand, Draws, Instance, Sought, Vehicle, eject, other_than, routes, try_exchange,
};

// The front of route a up to its position goes to the first work cells, and behind it the tail of route b from its. Returns these cells.
fn join<'a>(routes: EachRoute, work: &'a mut [u16], a: Position, b: Position) -> &'a [u16]
    requires other { a.route ≡ b.route → ⊥ }
    requires first { HasPosition (routes_left routes) a.route a.pos }
    requires second { HasPosition (routes_left routes) b.route b.pos }
    requires has_room { total routes.lengths.now ≤ length work.old }
    ensures { result.now ≡ joined a.route a.pos b.route b.pos (routes_left routes.entry) }
{
    let front = &routes.route(a.route)[..a.pos];
    let back = &routes.route(b.route)[b.pos..];
    let (first, rest) = work.split_at_mut(front.len());
    copy_cells(first, front);
    copy_cells(&mut rest[..back.len()], back);
    &work[..front.len() + back.len()]
}

// Whether the front of route a up to its position with the tail of route b from its behind it has stops and is feasible. It is put into the work cells.
#[tactic(auto, using(crate::proofs::JoinLaws::joined_laws))]
pub fn joined_stands(
    routes: EachRoute,
    work: &mut [u16],
    a: Position,
    b: Position,
    given: &Instance,
) -> bool
    requires other { a.route ≡ b.route → ⊥ }
    requires first { HasPosition (routes_left routes) a.route a.pos }
    requires second { HasPosition (routes_left routes) b.route b.pos }
    requires has_room { total routes.lengths.now ≤ length work.old }
    requires planned { Planned given.now.fleet.net.roads.size (routes_left routes) }
    ensures { result ≡ joined_stands (of_instance given.now) a.route a.pos b.route b.pos (routes_left routes.entry) }
{
    let route = join(routes, work, a, b);
    !route.is_empty() && feasible(route, given)
}

// Whether the load of the front of route a up to its position with the tail of route b from its behind it is within capacity. It is put into the work
// cells.
pub fn joined_within(
    routes: EachRoute,
    work: &mut [u16],
    a: Position,
    b: Position,
    vehicle: Vehicle,
    demand: &Demand,
) -> bool
    requires other { a.route ≡ b.route → ⊥ }
    requires first { HasPosition (routes_left routes) a.route a.pos }
    requires second { HasPosition (routes_left routes) b.route b.pos }
    requires has_room { total routes.lengths.now ≤ length work.old }
    requires planned { Planned (length demand.now.cells.now) (routes_left routes) }
    ensures { result ≡ fits (of_demand demand.now.cells.now vehicle)
        (load demand.now.cells.now (joined a.route a.pos b.route b.pos (routes_left routes.entry))) }
{
    let route = join(routes, work, a, b);
    within_capacity(route, demand, vehicle)
}
