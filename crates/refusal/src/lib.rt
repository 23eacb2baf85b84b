// Why a call or a sheet is refused: the rows of document 01's refusal table, each a variant. When a row applies is said in entry, specs/Table.antt, and for a
// sheet in sheet_format, specs/Form.antt.
#![tactic(auto)]

ghost use Rattle.std.specs.Prelude.{◌≡◌};

// A row of the table, in the table's order.
#[derive(Clone, Copy, Debug, PartialEq, Eq)]
pub enum Refusal {
    // How many places there are, or a slice's length.
    Sizes = 1,
    // A number of the problem.
    Values = 2,
    // A window that closes before it opens.
    Windows = 3,
    // The depot is no place.
    Depot = 4,
    // The lengths of the routes.
    Lengths = 5,
    // A stop.
    Stops = 6,
    // No draws.
    Tape = 7,
    // The step limit.
    StepLimit = 8,
    // Too few work cells.
    WorkCells = 9,
    // A sheet that is too long.
    SheetLength = 10,
    // A sheet that is not of the form.
    SheetForm = 11,
    // A sheet with too much in it, or no place.
    SheetSizes = 12,
}

impl Refusal {
    ghost use Rattle.refusal.specs.Number.{number};

    // The number of the row.
    pub fn number(self) -> u8
        ensures { result ≡ number self }
    {
        self as u8
    }
}
