// Cells that move: a stop put in among others, or some taken out.
#![tactic(auto)]

ghost use Rattle.std.specs.Prelude.{◌≡◌, ◌∷◌, ◌++◌, ◌+◌, ◌-◌, ◌≤◌, ◌<◌, length, take, drop};
ghost use Rattle.cells.specs.laws.Edits.{insert_at, cut};

// Of the crates below, passed on to those above.
pub use cells::{clear, copy_cells, copy_part};

// c comes in at the front, each cell moves one place right, and the last one falls out.
pub fn shift_right(tail: &mut [u16], c: u16)
    ensures { tail.new ≡ take (length tail.old) (c ∷ tail.old) }
{
    let mut carry = c;
    for i in 0..tail.len() {
        let x = tail[i];
        tail[i] = carry;
        carry = x;
    }
}

// The n cells at the front fall out and each other moves n places left; the last n cells keep their values.
pub fn shift_left(tail: &mut [u16], n: usize)
    requires { n ≤ length tail.old }
    ensures { tail.new ≡ drop n tail.old ++ drop (length tail.old - n) tail.old }
{
    cut(tail, 0, n);
}

// The stop c goes in at p, every later one moves one place right, and the last one falls out.
pub fn insert_at(stops: &mut [u16], p: usize, c: u16)
    requires { p < length stops.old }
    ensures { stops.new ≡ take (length stops.old) (insert_at p c stops.old) }
{
    shift_right(&mut stops[p..], c);
}

// The n stops from p on are taken out, and every later one moves n places left; the last n cells keep their values.
pub fn cut(stops: &mut [u16], p: usize, n: usize)
    requires { p + n ≤ length stops.old }
    ensures { stops.new ≡ cut p n stops.old ++ drop (length stops.old - n) stops.old }
{
    stops.copy_within(p + n.., p);
}
