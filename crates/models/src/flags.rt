// What a place's flags say: bit 0 that it has a window, bit 1 that it has a penalty.
ghost use Rattle.std.specs.Prelude.{◌≡◌};
ghost use Rattle.models.specs.Customer.{windowed, penalised};

// Whether a place's flags say that it has a window.
pub fn is_windowed(flag: u8) -> bool
    ensures { result ≡ windowed flag }
{
    flag % 2 == 1
}

// Whether a place's flags say that it has a penalty.
pub fn is_penalised(flag: u8) -> bool
    ensures { result ≡ penalised flag }
{
    flag / 2 % 2 == 1
}
