// What a replay of stored answers asked, counted and printed.
#![tactic(auto)]

ghost use Rattle.std.specs.Prelude.{◌≡◌, Some};
ghost use Rattle.stored_values.specs.Kinds.{number_of};
ghost use Rattle.tally.specs.Tally.{one_more, counted, no_calls, noted};
ghost use Rattle.tally.specs.Printed.{kind_line, printed};

use std::fmt;
use std::fmt::Write;

// Of the crates below, passed on to those above.
pub use stored_values::Kind;

// The handle of standard output.
const STDOUT: i32 = 1;

// Standard output.
#[derive(Clone, Copy)]
struct Stdout;

impl fmt::Write for Stdout {
    fn write_str(&mut self, s: &str) -> fmt::Result {
        if io::write_all(STDOUT, s.as_bytes()) {
            Ok(())
        } else {
            Err(fmt::Error)
        }
    }
}

// Calls counted by their kinds, and all of them.
#[derive(Clone, Copy, Default)]
pub struct Calls {
    by_kind: [u64; 10],
    all: u64,
}

// How many calls were asked, and how many of their answers agreed.
#[derive(Clone, Copy)]
pub struct Tally {
    asked: Calls,
    agreed: Calls,
}

// One more, up to the last number.
fn more(count: u64) -> u64
    ensures { result ≡ one_more count }
{
    count.saturating_add(1)
}

impl Calls {
    // Counts a call of a kind.
    fn count(&mut self, kind: Kind)
        ensures { self.new ≡ counted (number_of kind) self.old }
    {
        let of_kind = self.by_kind[kind.number()];
        self.by_kind[kind.number()] = more(of_kind);
        self.all = more(self.all);
    }
}

impl Tally {
    // The tally before any call.
    pub fn new() -> Tally
        ensures { result ≡ no_calls }
    {
        Tally {
            asked: Calls::default(),
            agreed: Calls::default(),
        }
    }

    // Counts a call, and as one that agrees only where it does; one that differs is printed.
    pub fn note(&mut self, kind: Kind, agrees: bool)
        ensures { self.new ≡ noted kind agrees self.old }
    {
        self.asked.count(kind);
        if agrees {
            self.agreed.count(kind);
        } else {
            print_difference(self.asked.all, kind);
        }
    }

    // Prints the whole tally.
    pub fn print(&self) {
        let _ = write!(Stdout, "{self}");
    }
}

// The line of a kind.
#[derive(Clone, Copy)]
struct KindLine {
    tally: Tally,
    kind: Kind,
}

impl fmt::Display for KindLine {
    ghost output = { λ line. Some (kind_line line.tally line.kind) };

    fn fmt<W: fmt::Write>(&self, f: &mut fmt::Formatter<W>) -> fmt::Result {
        let kind = self.kind;
        let asked = self.tally.asked.by_kind[kind.number()];
        let agreed = self.tally.agreed.by_kind[kind.number()];
        writeln!(f, "{kind}: {asked} calls, {agreed} agree")
    }
}

// A line for each kind, the sum last.
impl fmt::Display for Tally {
    ghost output = { λ tally. Some (printed tally) };

    fn fmt<W: fmt::Write>(&self, f: &mut fmt::Formatter<W>) -> fmt::Result {
        let tally = *self;
        for kind in Kind::ALL {
            let line = KindLine { tally, kind };
            write!(f, "{line}")?;
        }
        let asked = self.asked.all;
        let agreed = self.agreed.all;
        writeln!(f, "{asked} calls replayed, {agreed} agree")
    }
}

fn print_difference(number: u64, kind: Kind) {
    let _ = writeln!(Stdout, "call {number}, {kind}, differs");
}

// The line for a case that is not of the form.
pub fn print_fault(case: u64) {
    let _ = writeln!(Stdout, "case {case} is not of the form");
}

// The line for input whose cases are not as many as it says.
pub fn print_misfit() {
    let _ = writeln!(
        Stdout,
        "the input is not a number of cases and as many cases"
    );
}

// The line for input that there is no room for.
pub fn print_too_long() {
    let _ = writeln!(Stdout, "the input is too long");
}
