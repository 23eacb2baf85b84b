// A random move between two routes that have stops: of what kind and where is drawn, and it is tried (local_search/route_minimization.rs, `Pool::perturb`).
#![tactic(auto)]

ghost use Rattle.std.specs.Prelude.{◌≡◌, ◌≤◌, length};
ghost use Rattle.tail_exchange.specs.plan.Plan.{total};
ghost use Rattle.tail_exchange.specs.plan.Given.{plan_of, Becomes};
ghost use Rattle.tail_exchange.specs.perturbation.Perturb.{try_move};
ghost use Rattle.tail_exchange.specs.perturbation.Parts.{drawn_exchange, drawn_tails, Movable};
ghost use Rattle.tail_exchange.specs.perturbation.Moves.{Between};
ghost use Rattle.tail_exchange.specs.evaluation.Given.{of_instance};

use tail_exchange::routes::{Position, Routes};
use tail_exchange::{try_exchange, try_tails};

// Of the crates below, passed on to those above.
pub use tail_exchange::{Demand, Draws, Instance, Sought, Vehicle, eject, other_than, routes};

// A stop of route a and a stop of route b are drawn and exchanged, where both routes stay feasible.
#[tactic(auto, using(crate::proofs::DrawnLaws::exchange_laws))]
fn exchange_drawn(routes: &mut Routes, draws: &Draws, a: usize, b: usize, given: &Instance)
    requires movable { Movable given.now.fleet.net.roads.size routes.old draws.now }
    requires between { Between (plan_of routes.old) a b }
    ensures { Becomes routes.old (drawn_exchange (of_instance given.now) draws.now.tape.now draws.now.next a b (plan_of routes.old))
        (total routes.old.lengths.now) routes.new }
{
    let i = draws.draw(3, routes.lengths[a] as usize);
    let j = draws.draw(4, routes.lengths[b] as usize);
    try_exchange(
        routes,
        Position { route: a, pos: i },
        Position { route: b, pos: j },
        given,
    );
}

// A tail of route a and a tail of route b are drawn and exchanged, where both routes stand then.
#[tactic(auto, using(crate::proofs::DrawnLaws::tails_laws))]
fn tails_drawn(
    routes: &mut Routes,
    work: &mut [u16],
    draws: &Draws,
    a: usize,
    b: usize,
    given: &Instance,
)
    requires movable { Movable given.now.fleet.net.roads.size routes.old draws.now }
    requires has_room { length routes.old.stops.now ≤ length work.old }
    requires between { Between (plan_of routes.old) a b }
    ensures { Becomes routes.old (drawn_tails (of_instance given.now) draws.now.tape.now draws.now.next a b (plan_of routes.old)) (total routes.old.lengths.now)
        routes.new }
{
    let i = draws.draw(3, routes.lengths[a] as usize + 1);
    let j = draws.draw(4, routes.lengths[b] as usize + 1);
    try_tails(
        routes,
        work,
        Position { route: a, pos: i },
        Position { route: b, pos: j },
        given,
    );
}

// The kind of the move is drawn, and the move tried.
#[tactic(auto, using(crate::proofs::DrawnLaws::tried_laws))]
pub fn try_move(
    routes: &mut Routes,
    work: &mut [u16],
    draws: &Draws,
    a: usize,
    b: usize,
    given: &Instance,
)
    requires movable { Movable given.now.fleet.net.roads.size routes.old draws.now }
    requires has_room { length routes.old.stops.now ≤ length work.old }
    requires between { Between (plan_of routes.old) a b }
    ensures { Becomes routes.old (try_move (of_instance given.now) draws.now.tape.now draws.now.next a b (plan_of routes.old)) (total routes.old.lengths.now)
        routes.new }
{
    if draws.draw_bool(2) {
        exchange_drawn(routes, draws, a, b, given);
    } else {
        tails_drawn(routes, work, draws, a, b, given);
    }
}
