// The random moves after an ejection made on a plan (local_search/route_minimization.rs, `Pool::perturb`).
#![tactic(auto)]

ghost use Rattle.std.specs.Prelude.{◌≡◌, ◌+◌, ◌≤◌, ◌<◌, ◌^◌, length};
ghost use Rattle.pair_move.specs.plan.Plan.{total};
ghost use Rattle.pair_move.specs.plan.Given.{plan_of, Becomes};
ghost use Rattle.pair_move.specs.local_search.Planned.{Planned};
ghost use Rattle.pair_move.specs.perturbation.Perturb.{perturb};
ghost use Rattle.pair_move.specs.perturbation.Parts.{drawn};
ghost use Rattle.pair_move.specs.evaluation.Given.{of_instance};

use crate::moves::one_move;
use pair_move::Instance;
use pair_move::routes::Routes;

pub mod moves;

// Of the crates below, passed on to those above.
pub use pair_move::{Draws, Sought, eject};

// 100 moves are tried; over fewer than two routes none. The work cells are free.
#[tactic(auto, using(crate::proofs::PerturbLaws::perturb_laws))]
pub fn perturb(routes: &mut Routes, work: &mut [u16], draws: &mut Draws, given: &Instance)
    requires planned { Planned given.now.fleet.net.roads.size (plan_of routes.old) }
    requires has_room { length routes.old.stops.now ≤ length work.old }
    requires countable { draws.old.next + 500 < 2 ^ 64 }
    ensures plan { Becomes routes.old (perturb (of_instance given.now) draws.old.tape.now (drawn routes.old draws.old)).routes
        (total routes.old.lengths.now) routes.new }
    ensures tape { draws.new.tape ≡ draws.old.tape }
    ensures draws { draws.new.next ≡ (perturb (of_instance given.now) draws.old.tape.now (drawn routes.old draws.old)).draws }
{
    if routes.lengths.len() < 2 {
        return;
    }
    for _ in 0..100usize {
        one_move(routes, work, draws, given);
    }
}
