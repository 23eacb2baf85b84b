// What the rounds of both searches answer: of one attempt, and of the call.
use route_order::Pick;

// The pops counted and the words taken, of a call so far.
#[derive(Clone, Copy, Default)]
pub struct Counts {
    pub steps: u64,
    pub draws: u64,
}

// How the next attempt of a round ends: there is none, the plan is kept and this was the pick, or the one without the route is accepted.
#[derive(Clone, Copy)]
pub enum Next {
    End,
    Kept(Pick, Counts),
    Accepted(Counts),
}

// What a call answers: how many routes are left, and what its attempts count.
#[derive(Clone, Copy)]
pub struct Reduction {
    pub routes: usize,
    pub counts: Counts,
}
