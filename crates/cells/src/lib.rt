// Lent cells written over: copied from others, or cleared.
#![tactic(auto)]

ghost use Rattle.std.specs.Prelude.{◌≡◌, ◌+◌, ◌≤◌, length, drop, replicate};
ghost use Rattle.std.proofs.Math.Seq.{paste};

// The n cells of dst from `at` on become those of src from `from` on.
pub fn copy_part(dst: &mut [u16], at: usize, src: &[u16], from: usize, n: usize)
    requires { (at + n ≤ length dst.old) × (from + n ≤ length src.now) }
    ensures { dst.new ≡ paste dst.old at (drop from src.now) n }
{
    for i in 0..n {
        dst[at + i] = src[from + i];
    }
}

// The cells of dst become those of src. (By the kit's `copy_from_slice` the archive for C would ask for `memmove`, which it does not otherwise.)
pub fn copy_cells(dst: &mut [u16], src: &[u16])
    requires { length dst.old ≡ length src.now }
    ensures { dst.new ≡ src.now }
{
    copy_part(dst, 0, src, 0, src.len());
}

// Every cell becomes 0.
pub fn clear(cells: &mut [u16])
    ensures { cells.new ≡ replicate (length cells.old) 0 }
{
    cells.fill(0);
}
