// Route elimination: its definitions and their laws are in specs/. In code here, the stops of the route that is to go, the largest demand first: each is taken
// out of the cells that hold those left (local_search/route_elimination.rs, `moving`).
#![tactic(auto)]

ghost use Rattle.std.specs.Prelude.{◌≡◌, ◌-◌, ◌<◌, length, get_or, take};
ghost use Rattle.reinsertion_candidates.specs.laws.Edits.{erase};
ghost use Rattle.reinsertion_candidates.specs.models.Problem.{Stops};
ghost use Rattle.elimination_moves.specs.Largest.{larger, first_largest, larger_at};

use reinsertion_candidates::{Demand, cut};

// Whether the demand of c is larger than that of d.
fn larger(c: usize, d: usize, demand: &Demand) -> bool
    requires first { c < length demand.now.cells.now }
    requires second { d < length demand.now.cells.now }
    ensures { result ≡ larger demand.now.cells.now c d }
{
    demand.cells[d] < demand.cells[c]
}

// The place i where the stop there has a larger demand than the one at `best`, and else `best`.
fn larger_at(left: &[u16], i: usize, best: usize, demand: &Demand) -> usize
    requires stops { Stops (length demand.now.cells.now) left.now }
    requires there { i < length left.now }
    requires best { best < length left.now }
    ensures { result ≡ larger_at demand.now.cells.now left.now i best }
{
    if larger(left[i] as usize, left[best] as usize, demand) {
        return i;
    }
    best
}

// The place of the first stop with the largest demand.
fn first_largest(left: &[u16], demand: &Demand) -> usize
    requires stops { Stops (length demand.now.cells.now) left.now }
    requires some { 0 < length left.now }
    ensures { result ≡ first_largest demand.now.cells.now left.now }
{
    let mut best = 0;
    for i in 0..left.len() {
        best = larger_at(left, i, best, demand);
    }
    best
}

// The first stop with the largest demand of those that are left is taken out and returned; the last cell is free then.
pub fn take_largest(left: &mut [u16], demand: &Demand) -> u16
    requires stops { Stops (length demand.now.cells.now) left.old }
    requires some { 0 < length left.old }
    ensures stop { result ≡ get_or left.old (first_largest demand.now.cells.now left.old) 0 }
    ensures rest { take (length left.old - 1) left.new ≡ erase (first_largest demand.now.cells.now left.old) left.old }
{
    let i = first_largest(left, demand);
    let c = left[i];
    cut(left, i, 1);
    c
}
