// The section of the run, and the end of the sheet.
#![tactic(auto)]

ghost use Rattle.sheet_format.specs.sheet_text.Told.{Reads, told_as};
ghost use Rattle.sheet_format.specs.Form.{run_line, last_run};
ghost use Rattle.sheet_format.specs.Form.{run as Form·run};
ghost use Rattle.sheet_run.specs.Run.{run_of};

use sheet_format::{Refusal, Text, before, heading, sheet_text_number as number};

// M, the step limit, and K, the clock.
#[derive(Clone, Copy)]
pub struct RunLine {
    pub limit: u64,
    pub clock: u64,
}

// The line of M and K.
#[tactic(auto, using(crate::proofs::Readers::readers), unfolding(sheet_format::specs::Form::run_line))]
fn run_line(text: &mut Text<'_>) -> Result<RunLine, Refusal>
    ensures { Reads run_line text.old (told_as run_of result) text.new }
{
    let m = before(text, number, b' ')?;
    let k = before(text, number, b'\n')?;
    Ok(RunLine {
        limit: m as u64,
        clock: k as u64,
    })
}

// The section of the run.
#[tactic(auto, using(crate::proofs::Readers::readers), unfolding(sheet_format::specs::Form::run))]
fn run(text: &mut Text<'_>) -> Result<RunLine, Refusal>
    ensures { Reads Form·run text.old (told_as run_of result) text.new }
{
    heading(text, b"run", 1, 1, Refusal::SheetForm)?;
    run_line(text)
}

// The section of the run, behind which nothing follows.
#[tactic(auto, using(crate::proofs::Readers::readers), unfolding(sheet_format::specs::Form::last_run))]
pub fn last_run(text: &mut Text<'_>) -> Result<RunLine, Refusal>
    ensures { Reads last_run text.old (told_as run_of result) text.new }
{
    let run = run(text)?;
    if text.at == text.bytes.len() {
        Ok(run)
    } else {
        Err(Refusal::SheetForm)
    }
}
