// Row 6 of the refusal table (entry, specs/Table.antt) in code: the stops of a plan or of a route.
#![tactic(auto)]

ghost use Rattle.std.specs.Prelude.{◌≡◌, ◌∷◌, ◌++◌, [], true, not, eqb};
ghost use Rattle.length_checks.specs.laws.Searches.{any};
ghost use Rattle.length_checks.specs.models.Lent.{of_problem};
ghost use Rattle.length_checks.specs.entry.Table.{stop_passes, stops_pass};
ghost use Rattle.stop_checks.specs.Marks.{Marks};

// Of the crates below, passed on to those above.
pub use length_checks::{
    Problem, Refusal, RouteEval, Work, bad_lengths, break_schedule_schedule, evaluation_check,
    route_cost_gain_floor, route_cost_route_distance,
};

// Whether c is none of the stops before it, which are marked in a cell for each place; c is then marked too. A number from 256 on has no cell
// and is compared with each of them. No call comes to that: row 1 refuses more than 256 places.
fn mark_new(seen: &mut [bool], before: &[u16], c: u16) -> bool
    requires { Marks seen.old before.now }
    ensures new { result ≡ not (any (eqb c) before.now) }
    ensures marks { Marks seen.new (before.now ++ c ∷ []) }
{
    let at = c as usize;
    if at >= 256 {
        return !before.contains(&c);
    }
    let new = !seen[at];
    seen[at] = true;
    new
}

// Whether c is a place, not the depot, and none of the stops before it, which are marked; if so c is marked too.
fn stop_passes(seen: &mut [bool], before: &[u16], c: u16, problem: &Problem) -> bool
    requires { Marks seen.old before.now }
    ensures value { result ≡ stop_passes (of_problem problem.now) before.now c }
    ensures marks { result ≡ true → Marks seen.new (before.now ++ c ∷ []) }
{
    if c as usize >= problem.roads.size() || c as usize == problem.vehicle.depot_id {
        return false;
    }
    mark_new(seen, before, c)
}

// Whether row 6 lets the stops pass. Of n places at most n stops pass, so it ends after n + 1 of them at the latest.
pub fn stops_pass(stops: &[u16], problem: &Problem) -> bool
    ensures { result ≡ stops_pass (of_problem problem.now) stops.now }
{
    let mut seen = [false; 256];
    stops
        .iter()
        .enumerate()
        .all(|(i, c)| stop_passes(&mut seen, &stops[..i], *c, problem))
}
