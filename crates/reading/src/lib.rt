// Reading the text of a case.
#![tactic(auto)]

mod reader;
mod unset;

ghost use Rattle.std.specs.Prelude.{◌≡◌, length};
ghost use Rattle.texts.specs.Reading.{Reads};
ghost use Rattle.reading.specs.Fills.{Fills};
ghost use Rattle.reading.specs.Blocks.{Blocks};

use drafting::nothing;
use texts::TextRead;

// What turning a text into a block answers: the code, the line that 17 or 19 names, whether the text had a usual bound that is not 0.
// Numbers and no Result: `Blocks` of specs/Blocks.antt speaks of such a record, and the exports hand its numbers to C.
#[derive(Clone, Copy)]
pub struct TextBlock {
    pub code: u8,
    pub line: usize,
    pub usual: bool,
}

// Reads the case that a text says and writes its block. A refused text gives the refused case and zeros.
fn fill(text: &[u8], block: &mut [u8]) -> TextRead
    requires { length block.old ≡ 512 }
    ensures { Fills text.now (length block.old) result block.new }
{
    let heard = reader::hear(text);
    if heard.code != 0 {
        block.fill(0);
        return heard;
    }
    let fault = cases::write_case(heard.case, block);
    if fault.code != 0 {
        return TextRead {
            code: 19,
            line: unset::line_at(heard.line, &heard.case.counts, fault.position),
            usual: false,
            case: nothing(),
        };
    }
    TextRead {
        code: 0,
        line: 0,
        ..heard
    }
}

// Reads the case that a text says. A refused text gives the refused case.
pub fn read_text(text: &[u8]) -> TextRead
    ensures { Reads text.now result }
{
    let mut block = [0u8; 512];
    fill(text, &mut block)
}

// The block of a text: 17 and 19 on the text, then 1 on the buffer. Refused, the buffer is all zeros.
pub fn text_to_block(text: &[u8], block: &mut [u8]) -> TextBlock
    ensures { Blocks text.now (length block.old) result block.new }
{
    if block.len() == 512 {
        let TextRead {
            code,
            line,
            usual,
            ..
        } = fill(text, block);
        return TextBlock { code, line, usual };
    }
    block.fill(0);
    let TextRead { code, line, .. } = read_text(text);
    TextBlock {
        code: if code != 0 { code } else { 1 },
        line,
        usual: false,
    }
}
