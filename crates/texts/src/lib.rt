// The text of a case: its definitions, and the bytes of a line.
#![tactic(auto)]

mod rows;

use cases::{Case, Instr};
pub use rows::row_body;

// A line of a text: the first one, an old first one, a memory word, a preset, an instruction.
#[derive(Clone, Copy)]
pub enum Row {
    Head(u8, u8),
    Old(u8, u8, u8),
    Mem(u8, u16),
    Reg(u8, u8, u16),
    Op(u8, Instr),
}

// What reading a text answers: the code, the line that 17 or 19 names, whether an old text had a usual bound that is not 0, the case.
// Numbers and no Result: `Reads` of specs/Reading.antt speaks of such a record.
#[derive(Clone, Copy)]
pub struct TextRead {
    pub code: u8,
    pub line: usize,
    pub usual: bool,
    pub case: Case,
}

// What writing a text answers: the code, the text's length, the position that a code of the record carries.
// Numbers and no Result: `text_fault` of specs/Writing.antt is such a record, and the exports hand its numbers to C.
#[derive(Clone, Copy)]
pub struct TextWritten {
    pub code: u8,
    pub length: usize,
    pub position: usize,
}
