// Whether the slices for an answer have its lengths, and whether the byte `given` is one. C gets 100 or 101 where not, and nothing is written.
#![tactic(auto)]

ghost use Rattle.std.specs.Prelude.{◌≡◌};
ghost use Rattle.c_fits.specs.Misfit.{code_of, misfit};

// What does not fit.
#[derive(Clone, Copy, Debug, PartialEq, Eq)]
pub enum Fault {
    // A slice for the answer has not its length.
    Length = 100,
    // `given` is over 7.
    Given = 101,
}

impl Fault {
    ghost use Rattle.c_fits.specs.Misfit.{code};

    // The number that C gets.
    pub fn code(self) -> u8
        ensures { result ≡ code self }
    {
        self as u8
    }
}

// How many cells an answer takes in each of the slices that are lent for it.
#[derive(Clone, Copy, Debug, PartialEq, Eq)]
pub struct Shape {
    // Floats; of a sheet, the bytes of its text.
    pub floats: usize,
    pub numbers: usize,
}

impl Shape {
    // Yes or no.
    pub const CHECKED: Shape = Shape {
        floats: 0,
        numbers: 1,
    };
    // A number.
    pub const NUMBER: Shape = Shape {
        floats: 1,
        numbers: 0,
    };
    // An evaluation.
    pub const EVALUATED: Shape = Shape {
        floats: 5,
        numbers: 3,
    };
    // A window. It has no `given`.
    pub const WINDOW: Shape = Shape {
        floats: 2,
        numbers: 1,
    };
    // What a call that changes a plan did.
    pub const REPLY: Shape = Shape {
        floats: 0,
        numbers: 3,
    };
    // A list of calls, whose slices are tested with its words.
    pub const LIST: Shape = Shape {
        floats: 0,
        numbers: 0,
    };
    // A sheet. It has no `given`.
    pub const SHEET: Shape = Shape {
        floats: 6000,
        numbers: 1,
    };

    // A fault where a slice for the answer has not its length, or `given` is over 7. An answer without a `given` hands over 0.
    #[tactic(auto, unfolding(crate::specs::Misfit::misfit))]
    pub fn misfit(self, floats: usize, numbers: usize, given: u8) -> Result<(), Fault>
        ensures { code_of result ≡ misfit floats self.floats numbers self.numbers given }
    {
        if floats != self.floats || numbers != self.numbers {
            return Err(Fault::Length);
        }
        if given > 7 {
            return Err(Fault::Given);
        }
        Ok(())
    }
}
