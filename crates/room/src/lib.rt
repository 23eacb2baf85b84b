// Room: arrays of zeros, as long as their types say.
#![tactic(auto)]

ghost use Rattle.std.specs.Prelude.{◌≡◌, All, length};

// N zeros.
pub fn zeros<T: Copy + Default, const N: usize>() -> [T; N]
    ensures count { length result ≡ N }
    ensures each { All T.is_default result }
{
    [T::default(); N]
}
