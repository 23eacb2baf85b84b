// One random move: between which two routes is drawn.
ghost use Rattle.std.specs.Prelude.{◌≡◌, ◌≤◌, length};
ghost use Rattle.pair_move.specs.plan.Plan.{total};
ghost use Rattle.pair_move.specs.plan.Given.{plan_of, Becomes};
ghost use Rattle.pair_move.specs.perturbation.Perturb.{move};
ghost use Rattle.pair_move.specs.perturbation.Parts.{Movable, drawn};
ghost use Rattle.pair_move.specs.evaluation.Given.{of_instance};

use pair_move::routes::Routes;
use pair_move::{Draws, Instance, move_between, other_than};

// Two routes are drawn, and a move between them tried.
#[tactic(auto, using(crate::proofs::MoveLaws::move_laws))]
pub fn one_move(routes: &mut Routes, work: &mut [u16], draws: &mut Draws, given: &Instance)
    requires movable { Movable given.now.fleet.net.roads.size routes.old draws.old }
    requires has_room { length routes.old.stops.now ≤ length work.old }
    requires two { 2 ≤ length routes.old.lengths.now }
    ensures plan { Becomes routes.old (move (of_instance given.now) draws.old.tape.now (drawn routes.old draws.old)).routes
        (total routes.old.lengths.now) routes.new }
    ensures tape { draws.new.tape ≡ draws.old.tape }
    ensures draws { draws.new.next ≡ (move (of_instance given.now) draws.old.tape.now (drawn routes.old draws.old)).draws }
{
    let count = routes.lengths.len();
    let a = draws.draw(0, count);
    let b = other_than(a, draws.draw(1, count - 1));
    move_between(routes, work, draws, a, b, given);
}
