// Two cells, or two parts of lent cells, exchanged.
#![tactic(auto)]

ghost use Rattle.std.specs.Prelude.{◌≡◌, ◌-◌, ◌≤◌, ◌<◌, length};
ghost use Rattle.cell_shifts.specs.laws.Exchanges.{swap, swap_parts};

// Of the crates below, passed on to those above.
pub use cell_shifts::{clear, copy_cells, copy_part, cut, insert_at};

// The cells at i and j are exchanged.
pub fn swap(stops: &mut [u16], i: usize, j: usize)
    requires { (i < length stops.old) × (j < length stops.old) }
    ensures { stops.new ≡ swap i j stops.old }
{
    stops.swap(i, j);
}

// The part from a to b is exchanged with the part from x to y, further right. The work cells are free.
pub fn swap_parts(stops: &mut [u16], work: &mut [u16], a: usize, b: usize, x: usize, y: usize)
    requires { (a ≤ b) × (b ≤ x) × (x ≤ y) × (y ≤ length stops.old) × (y - a ≤ length work.old) }
    ensures { stops.new ≡ swap_parts a b x y stops.old }
{
    let m = y - x;
    let n = x - b;
    copy_part(work, 0, stops, a, y - a);
    copy_part(stops, a, work, x - a, m);
    copy_part(stops, a + m, work, b - a, n);
    copy_part(stops, a + m + n, work, 0, b - a);
}
