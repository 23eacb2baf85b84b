// The ejection (local_search/route_minimization.rs, `Pool::eject`): one stop leaves a route, or two, so that another can go in.
#![tactic(auto)]

ghost use Rattle.std.specs.Prelude.{◌≡◌, ◌≤◌, ◌<◌, length, take};
ghost use Rattle.insertion.specs.models.Problem.{Stops};
ghost use Rattle.ejection.specs.Eject.{kept, failures_at, failure_sum, fails_more, outranks};
ghost use Rattle.ejection.specs.Asked.{Counted};

// Of the crates below, passed on to those above.
pub use insertion::{
    Counts, Demand, DistanceMatrix, Fleet, Instance, LocalSearchNext, Pick, Reduction, Times,
    Vehicle, checked, constrained, copy_cells, copy_part, feasible, has_room, insertion_cost,
    may_pass, pick_after, rounds, routes, within_capacity,
};

// Who leaves a route and where the popped stop goes: the sum of their failures, what the insertion costs, the route, the two places in it
// (the same one twice where one stop leaves), and the position in the kept part.
#[derive(Clone, Copy)]
pub struct Ejection {
    pub failed: u32,
    pub cost: f64,
    pub route: usize,
    pub first: usize,
    pub second: usize,
    pub pos: usize,
}

// What an ejection is sought for: the stop c, with the failures that are counted, in an instance.
#[derive(Clone, Copy)]
pub struct Sought<'a> {
    pub c: usize,
    pub failures: &'a [u32],
    pub given: &'a Instance<'a>,
    pub ghost place: { c < given.now.fleet.net.roads.size },
    pub ghost counted: { Counted given.now.fleet.net.roads.size failures.now },
}

// Whether the sum of failures alone rules an ejection out.
pub fn fails_more(failed: u32, best: Option<Ejection>) -> bool
    ensures { result ≡ fails_more failed best }
{
    best.is_some_and(|e| e.failed < failed)
}

// Whether an ejection ranks before the best so far: by failures, then by cost, the first of equals.
pub fn outranks(failed: u32, cost: f64, best: Option<Ejection>) -> bool
    ensures { result ≡ outranks failed cost best }
{
    best.is_none_or(|e| failed < e.failed || failed == e.failed && !(cost >= e.cost))
}

// The failures of the stop at i.
fn failures_at(failures: &[u32], route: &[u16], i: usize) -> u32
    requires counted { Counted (length failures.now) failures.now }
    requires stops { Stops (length failures.now) route.now }
    requires there { i < length route.now }
    ensures { result ≡ failures_at failures.now route.now i }
{
    failures[route[i] as usize]
}

// The sum of the failures of the stops at i and j, once where they are the same.
#[tactic(auto, unfolding(crate::specs::Eject::failure_sum))]
pub fn failure_sum(failures: &[u32], route: &[u16], i: usize, j: usize) -> u32
    requires counted { Counted (length failures.now) failures.now }
    requires stops { Stops (length failures.now) route.now }
    requires places { (i ≤ j) × (j < length route.now) }
    ensures { result ≡ failure_sum failures.now route.now i j }
{
    let a = failures_at(failures, route, i);
    if i == j {
        return a;
    }
    let b = failures_at(failures, route, j);
    a + b
}

// The route without the stops at i and j goes to the first work cells. Returns how many they are.
#[tactic(auto, using(crate::specs::Asked::kept_length))]
pub fn keep(work: &mut [u16], route: &[u16], i: usize, j: usize) -> usize
    requires places { (i ≤ j) × (j < length route.now) }
    requires room { length route.now ≤ length work.old }
    ensures cells { take result work.new ≡ kept i j route.now }
    ensures number { result ≡ length (kept i j route.now) }
{
    let between = j.saturating_sub(i + 1);
    let rest = route.len() - (j + 1);
    insertion::copy_part(work, 0, route, 0, i);
    insertion::copy_part(work, i, route, i + 1, between);
    insertion::copy_part(work, i + between, route, j + 1, rest);
    i + between + rest
}

// The same. Returns these cells.
#[tactic(auto, using(crate::specs::Asked::kept_length))]
pub fn keep_part<'a>(work: &'a mut [u16], route: &[u16], i: usize, j: usize) -> &'a [u16]
    requires places { (i ≤ j) × (j < length route.now) }
    requires room { length route.now ≤ length work.old }
    ensures { result.now ≡ kept i j route.now }
{
    let number = keep(work, route, i, j);
    &work[..number]
}
