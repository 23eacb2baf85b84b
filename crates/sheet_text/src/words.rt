// What stands behind a token.
ghost use Rattle.std.specs.Prelude.{◌≡◌};
ghost use Rattle.sheet_text.specs.Text.{ending as Text·ending};

// What stands behind a token with `left` more of its line to come.
pub fn ending(left: usize) -> u8
    ensures { result ≡ Text·ending left }
{
    if left == 0 { 10 } else { 32 }
}
