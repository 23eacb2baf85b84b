// Draws from a tape of words, and what a move takes from them.
ghost use Rattle.std.specs.Prelude.{◌≡◌, ◌+◌, ◌<◌, ◌^◌, length};
ghost use Rattle.perturbation.specs.Perturb.{word, draw, draw_bool, other_than};

// A tape that has words, and the draw that comes next.
#[derive(Clone, Copy)]
pub struct Draws<'a> {
    pub tape: &'a [u64],
    pub next: u64,
    pub ghost some: { 0 < length tape.now },
}

impl<'a> Draws<'a> {
    // The word of the draw that comes i draws after the next.
    #[tactic(auto, unfolding(crate::specs::Perturb::word))]
    fn word(&self, i: u64) -> u64
        requires { self.now.next + i < 2 ^ 64 }
        ensures { result ≡ word self.now.tape.now (self.now.next + i) }
    {
        let tape = self.tape;
        let d = self.next + i;
        tape[(d % tape.len() as u64) as usize]
    }

    // That draw out of m values.
    #[tactic(auto, unfolding(crate::specs::Perturb::draw))]
    pub fn draw(&self, i: u64, m: usize) -> usize
        requires has_values { 0 < m }
        requires countable { self.now.next + i < 2 ^ 64 }
        ensures { result ≡ draw self.now.tape.now (self.now.next + i) m }
    {
        (self.word(i) % m as u64) as usize
    }

    // That draw out of true and false: true for an even word.
    #[tactic(auto, unfolding(crate::specs::Perturb::draw_bool))]
    pub fn draw_bool(&self, i: u64) -> bool
        requires { self.now.next + i < 2 ^ 64 }
        ensures { result ≡ draw_bool self.now.tape.now (self.now.next + i) }
    {
        self.word(i) % 2 == 0
    }

    // The next n draws are taken.
    pub fn pass(&mut self, n: u64)
        requires { self.old.next + n < 2 ^ 64 }
        ensures tape { self.new.tape ≡ self.old.tape }
        ensures next { self.new.next ≡ self.old.next + n }
    {
        self.next += n;
    }
}

// The route that draw b out of the routes but a stands for.
#[tactic(auto, unfolding(crate::specs::Perturb::other_than))]
pub fn other_than(a: usize, b: usize) -> usize
    requires { b + 1 < 2 ^ 64 }
    ensures { result ≡ other_than a b }
{
    if a <= b {
        return b + 1;
    }
    b
}
