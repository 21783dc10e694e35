// The lines that hold codes and counts.
ghost use Rattle.std.specs.Prelude.{◌≡◌, ◌≤◌, length};
ghost use Rattle.lines.specs.Answers.{of_block, ending as ending_of, header_line, refusal_line, replay_line};
ghost use Rattle.lines.specs.Laid.{Laid, LaidShort};

use crate::laying::word;
use crate::number::decimal;

// Whether a code is the block's.
fn of_block(code: u8) -> bool
    ensures { result ≡ of_block code }
{
    matches!(code, 1..=7 | 19)
}

// The end of a line: a block's code is followed by its position.
fn ending(text: &mut [u8], at: usize, code: u8, position: usize) -> usize
    ensures { LaidShort 25 text.old at (ending_of code position) text.new result }
{
    if of_block(code) {
        let behind_at = word(text, at, b" at ");
        let behind_position = decimal(text, behind_at, position);
        word(text, behind_position, b"\n")
    } else {
        word(text, at, b"\n")
    }
}

// The line of a refusal.
pub fn refusal(text: &mut [u8], at: usize, code: u8, position: usize) -> usize
    ensures laid { Laid text.old at (refusal_line code position) text.new result }
    ensures short { length (refusal_line code position) ≤ 36 }
{
    let behind_word = word(text, at, b"refused ");
    let behind_code = decimal(text, behind_word, code as usize);
    ending(text, behind_code, code, position)
}

// The line of a replay.
pub fn replay(text: &mut [u8], at: usize, code: u8, steps: usize, position: usize) -> usize
    ensures laid { Laid text.old at (replay_line code steps position) text.new result }
    ensures short { length (replay_line code steps position) ≤ 66 }
{
    let behind_word = word(text, at, b"code ");
    let behind_code = decimal(text, behind_word, code as usize);
    let behind_after = word(text, behind_code, b" after ");
    let behind_number = decimal(text, behind_after, steps);
    let behind_steps = word(text, behind_number, b" steps");
    ending(text, behind_steps, code, position)
}

// The header of a list: the count and the cut mark.
pub fn header(text: &mut [u8], at: usize, count: usize, cut: bool) -> usize
    ensures { LaidShort 38 text.old at (header_line count cut) text.new result }
{
    let behind_word = word(text, at, b"outcomes ");
    let behind_count = decimal(text, behind_word, count);
    if cut {
        word(text, behind_count, b" cut yes\n")
    } else {
        word(text, behind_count, b" cut no\n")
    }
}
