// A list of calls as words that the caller lends: what they ask for, and whether they are malformed. What the words say, and how an answer and both
// slices are recorded, is in specs/Words.antt.
#![tactic(auto)]

ghost use Rattle.std.specs.Prelude.{◌≡◌, ◌*◌, map, eqb};
ghost use Rattle.call_words.specs.Words.{buffers, words_first, asks, kind_passes, call_passes, calls_pass, well_formed};

// Of the crates below, passed on to those above.
pub use planner::{Problem, Reduction, Refusal, Vehicle, Work, copy_cells, copy_part};

// What a call of a list asks for.
#[derive(Clone, Copy, PartialEq, Eq)]
pub enum Kind {
    Minimise,
    Eliminate,
}

// The six words of a call: its kind (0 minimise, 1 eliminate), M, K, how many words its tape has, and how many u16 and f64 work cells it is lent.
#[derive(Clone, Copy)]
pub struct Words {
    pub kind: u64,
    pub limit: u64,
    pub clock: u64,
    pub tape: usize,
    pub work: Work,
}

impl Words {
    // What six words say.
    pub fn of(call: &[u64; 6]) -> Words
        ensures { result ≡ words_first call.now }
    {
        let [kind, limit, clock, tape, small, wide] = *call;
        Words {
            kind,
            limit,
            clock,
            tape: tape as usize,
            work: Work {
                u16_cells: small as usize,
                f64_cells: wide as usize,
            },
        }
    }

    // What the words ask for, or nothing where no call has their kind.
    pub fn asks(self) -> Option<Kind>
        ensures { result ≡ asks self }
    {
        match self.kind {
            0 => Some(Kind::Minimise),
            1 => Some(Kind::Eliminate),
            _ => None,
        }
    }
}

// What a list of calls is lent to be written: the plan, the work cells, room for the answers, and for both slices after each call.
#[derive(Drop)]
pub struct Buffers<'a> {
    pub lengths: &'a mut [u16],
    pub stops: &'a mut [u16],
    pub work: &'a mut [u16],
    pub cells: &'a mut [f64],
    pub answers: &'a mut [u64],
    pub history: &'a mut [u16],
}

// Whether the kind is one of the two, and an eliminate has no M, K and tape.
#[tactic(auto, unfolding(crate::specs::Words::kind_passes))]
fn kind_passes(w: Words) -> bool
    ensures { result ≡ kind_passes w }
{
    match w.asks() {
        Some(Kind::Minimise) => true,
        Some(Kind::Eliminate) => w.limit == 0 && w.clock == 0 && w.tape == 0,
        None => false,
    }
}

// Whether the words are a call's, and it is lent no more work cells than there are.
#[tactic(auto, unfolding(crate::specs::Words::call_passes))]
fn call_passes(w: Words, there: Work) -> bool
    ensures { result ≡ call_passes there w }
{
    kind_passes(w) && w.work.u16_cells <= there.u16_cells && w.work.f64_cells <= there.f64_cells
}

// Whether each call passes, and their tapes have so many words together.
fn calls_pass(calls: &[[u64; 6]], tapes: usize, there: Work) -> bool
    ensures { result ≡ calls_pass there (map words_first calls.now) tapes }
{
    let mut left = tapes;
    for call in calls {
        let w = Words::of(call);
        if !call_passes(w, there) {
            return false;
        }
        if left < w.tape {
            return false;
        }
        left -= w.tape;
    }
    left == 0
}

// Whether the whole is so many parts; their product may be too large for a number.
fn is_product(whole: usize, count: usize, part: usize) -> bool
    ensures { result ≡ eqb whole (count * part) }
{
    count.checked_mul(part) == Some(whole)
}

// Whether the words are calls, and the numbers that they name fit what is lent.
#[tactic(auto, unfolding(crate::specs::Words::well_formed))]
pub fn well_formed(
    lengths: &[u16],
    stops: &[u16],
    work: &[u16],
    cells: &[f64],
    answers: &[u64],
    history: &[u16],
    calls: &[u64],
    tapes: &[u64],
) -> bool
    ensures { result ≡ well_formed calls.now tapes.now (buffers lengths.now stops.now work.now cells.now answers.now history.now) }
{
    let (words, rest) = calls.as_chunks::<6>();
    let count = words.len();
    rest.is_empty()
        && answers.len() == count * 4
        && is_product(history.len(), count, lengths.len() + stops.len())
        && calls_pass(words, tapes.len(), Work::of(work, cells))
}
