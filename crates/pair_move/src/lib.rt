// A random move between two routes that are given (local_search/route_minimization.rs, `Pool::perturb`): where one of them is empty there is none.
#![tactic(auto)]

ghost use Rattle.std.specs.Prelude.{◌≡◌, ◌≤◌, length};
ghost use Rattle.drawn_moves.specs.plan.Plan.{total};
ghost use Rattle.drawn_moves.specs.plan.Given.{plan_of, Becomes};
ghost use Rattle.drawn_moves.specs.perturbation.Perturb.{move_between};
ghost use Rattle.drawn_moves.specs.perturbation.Parts.{Movable, Pair, drawn};
ghost use Rattle.drawn_moves.specs.evaluation.Given.{of_instance};

use drawn_moves::routes::Routes;
use drawn_moves::try_move;

// Of the crates below, passed on to those above.
pub use drawn_moves::{Demand, Draws, Instance, Sought, Vehicle, eject, other_than, routes};

// A move between routes a and b, which takes its draws: where one of them is empty there is none.
#[tactic(auto, using(crate::proofs::PairLaws::pair_laws))]
pub fn move_between(
    routes: &mut Routes,
    work: &mut [u16],
    draws: &mut Draws,
    a: usize,
    b: usize,
    given: &Instance,
)
    requires movable { Movable given.now.fleet.net.roads.size routes.old draws.old }
    requires has_room { length routes.old.stops.now ≤ length work.old }
    requires pair { Pair (plan_of routes.old) a b }
    ensures plan { Becomes routes.old (move_between (of_instance given.now) draws.old.tape.now a b (drawn routes.old draws.old)).routes
        (total routes.old.lengths.now) routes.new }
    ensures tape { draws.new.tape ≡ draws.old.tape }
    ensures draws { draws.new.next ≡ (move_between (of_instance given.now) draws.old.tape.now a b (drawn routes.old draws.old)).draws }
{
    if routes.lengths[a] == 0 || routes.lengths[b] == 0 {
        draws.pass(2); // there is none
        return;
    }
    try_move(routes, work, draws, a, b, given);
    draws.pass(5);
}
