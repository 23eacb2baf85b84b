// A sheet from bytes to bytes.
ghost use Rattle.std.specs.Prelude.{◌≡◌};
ghost use Rattle.c_reports.specs.sheet_answers.Printed.{printed};
ghost use Rattle.cobrwydd.specs.Sheets.{prints, sheet_call};

use c_answers::Shape;
use c_reports::{plan_sheet, put_printed};

// What a text prints, its listing or the line of its refusal, in `out`, and in written[0] how many bytes that are.
#[unsafe(no_mangle)]
pub extern "C" fn cobrwydd_plan_sheet(out: &mut [u8], written: &mut [u64], text: &[u8]) -> u8
    ensures { prints result out.new written.new ≡ sheet_call out.old written.old (printed text.now) }
{
    if let Err(fault) = Shape::SHEET.misfit(out.len(), written.len(), 0) {
        return fault.code();
    }
    let p = plan_sheet(out, text);
    put_printed(written, p)
}
