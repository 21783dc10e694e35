// Writing the text of a case.
#![tactic(auto)]

mod writer;

ghost use Rattle.std.specs.Prelude.{◌≡◌, length};
ghost use Rattle.texts.specs.Writing.{text_fault, text_written};
ghost use Rattle.writing.specs.Texts.{Texts};

use cases::Case;
use texts::TextWritten;

// Writes the text of a case. Refused, the buffer is all zeros.
pub fn write_text(case: Case, out: &mut [u8]) -> TextWritten
    ensures { (result ≡ text_fault case (length out.old)) × (out.new ≡ text_written case (length out.old)) }
{
    let fault = writer::fault(case);
    out.fill(0);
    if fault.code != 0 {
        return TextWritten {
            code: fault.code,
            length: 0,
            position: fault.position,
        };
    }
    let mut page = [0u8; 3600];
    let n = writer::lay(&mut page, case);
    if n > out.len() {
        return TextWritten {
            code: 18,
            length: 0,
            position: 0,
        };
    }
    out[..n].copy_from_slice(&page[..n]);
    TextWritten {
        code: 0,
        length: n,
        position: 0,
    }
}

// The text of a block: its codes, then those of writing. Refused, the buffer is all zeros.
pub fn block_to_text(block: &[u8], out: &mut [u8]) -> TextWritten
    ensures { Texts block.now (length out.old) result out.new }
{
    let read = cases::read_case(block);
    if read.code != 0 {
        out.fill(0);
        return TextWritten {
            code: read.code,
            length: 0,
            position: read.position,
        };
    }
    write_text(read.case, out)
}
