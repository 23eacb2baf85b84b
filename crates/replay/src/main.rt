// Replays stored answers of the original Rust: reads cases from standard input, puts each call to the planner, and prints how many answers are the stored
// ones, bit for bit. The input is the number of cases and the cases (cases.rt), numbers in decimal. README.md says how it is made.
#![tactic(auto)]

ghost use Rattle.std.specs.Prelude.{◌≡◌, length};

mod cases;

use cases::case_at;
use replayed_calls::{Numbers, Tally, print_fault, print_misfit, print_too_long};
use room::zeros;

// Room for the input: half a megabyte.
const INPUT_ROOM: usize = 524288;

// This room, empty.
fn input_room() -> [u8; INPUT_ROOM]
    ensures { length result ≡ 524288 }
{
    zeros()
}

// Replays the cases of a text.
fn replay(text: &[u8]) {
    let mut tally = Tally::new();
    let mut numbers = Numbers { rest: text };
    let Some(cases) = numbers.next() else {
        print_misfit();
        return;
    };
    for case in 1..=cases {
        if case_at(&mut numbers, &mut tally).is_none() {
            print_fault(case);
            return;
        }
    }
    if numbers.at_end() {
        tally.print();
    } else {
        print_misfit();
    }
}

fn main() {
    let mut text = input_room();
    let n = io::read_full(0, &mut text);
    if n == INPUT_ROOM {
        print_too_long();
        return;
    }
    replay(&text[..n]);
}
