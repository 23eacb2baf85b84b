// The ejection pool (local_search/route_minimization.rs, `Pool::empty_into`): its definition and its laws, in specs/, and what a call may use.
#![tactic(auto)]

ghost use Rattle.std.specs.Prelude.{◌<◌, length};

use ejection_made::Instance;

// Of the crates below, passed on to those above.
pub use ejection_made::{
    Counts, LocalSearchNext, Pick, Pool, Reduction, pick_after, rounds, routes,
};

// What a call may use: the tape that it draws from, how many steps an attempt may take, and after how many steps of the call the clock stops it.
#[derive(Clone, Copy)]
pub struct Allowance<'a> {
    pub tape: &'a [u64],
    pub limit: u64,
    pub clock: u64,
}

// What each attempt of a minimisation is lent: the instance, and what the call may use, whose tape has words.
#[derive(Clone, Copy)]
pub struct Minimisation<'a> {
    pub instance: &'a Instance<'a>,
    pub allowance: Allowance<'a>,
    pub ghost words: { 0 < length allowance.tape.now },
}
