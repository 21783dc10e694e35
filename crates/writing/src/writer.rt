// The lines of a case, laid one behind the other.
ghost use Rattle.std.specs.Prelude.{◌≡◌, cond, ℕ, ◌≤◌, ◌<◌, length, get_or};
ghost use Rattle.std.proofs.Math.Option.{none, some};
ghost use Rattle.words.specs.Small.{counting, concat_map};
ghost use Rattle.words.specs.Refusals.{first_code_of};
ghost use Rattle.words.specs.Sets.{has as in_set};
ghost use Rattle.cases.specs.Block.{contents, faults, fault_of};
ghost use Rattle.cases.specs.Case.{count_of};
ghost use Rattle.lines.specs.Laid.{Laid, LaidShort};
ghost use Rattle.texts.specs.Lines.{mem_line, reg_line};
ghost use Rattle.texts.specs.Text.{line_bytes, text_of};
ghost use Rattle.texts.specs.Rows.{line_of};
ghost use Rattle.writing.specs.Laying.{word_text, preset_text, op_text, program_text};

use cases::{Case, Fault, Slot, write_case};
use texts::{Row, row_body};
use words::has;

// The first of codes 3 to 7 and 19 that a record gets, with its position.
pub fn fault(case: Case) -> Fault
    ensures { result ≡ fault_of (contents case) (first_code_of (faults (contents case))) }
{
    let mut block = [0u8; 512];
    write_case(case, &mut block)
}

// A line.
fn add(page: &mut [u8], at: usize, row: Row) -> usize
    ensures { LaidShort 40 page.old at (line_bytes (line_of row)) page.new result }
{
    let behind_body = row_body(page, at, row);
    lines::word(page, behind_body, b"\n")
}

// A memory word, unless it is zero.
fn add_word(page: &mut [u8], at: usize, l: usize, v: u16) -> usize
    requires { l < 8 }
    ensures { LaidShort 40 page.old at (concat_map line_bytes (mem_line l v)) page.new result }
{
    if v == 0 {
        at
    } else {
        add(page, at, Row::Mem(l as u8, v))
    }
}

// Register k of processor p, if its bit of the mask is set.
fn add_preset(page: &mut [u8], at: usize, mask: u8, p: usize, k: usize, v: u16) -> usize
    requires { (p < 4) × (k < 8) }
    ensures { LaidShort 40 page.old at (concat_map line_bytes (reg_line p k (cond (in_set mask k) (some v) none))) page.new result }
{
    if has(mask as u64, k) {
        add(page, at, Row::Reg(p as u8, k as u8, v))
    } else {
        at
    }
}

// The memory words.
fn add_words(page: &mut [u8], at: usize, memory: &[u16; 8]) -> usize
    ensures { LaidShort 320 page.old at (concat_map (word_text memory.now) (counting 0 8)) page.new result }
{
    let mut to = at;
    for l in 0..8 {
        to = add_word(page, to, l, memory[l]);
    }
    to
}

// The presets.
fn add_presets(page: &mut [u8], at: usize, masks: &[u8; 4], presets: &[u16; 32]) -> usize
    ensures { LaidShort 1280 page.old at (concat_map (preset_text masks.now presets.now) (counting 0 32)) page.new result }
{
    let mut to = at;
    for n in 0..32 {
        let p = n / 8;
        let k = n % 8;
        to = add_preset(page, to, masks[p], p, k, presets[8 * p + k]);
    }
    to
}

// The instructions of processor p.
fn add_program(page: &mut [u8], at: usize, p: usize, count: usize, code: &[Slot; 48]) -> usize
    requires { (p < 4) × (count ≤ 12) }
    ensures { LaidShort 480 page.old at (concat_map (op_text code.now p) (counting 0 count)) page.new result }
{
    let mut to = at;
    for i in 0..count {
        to = add(page, to, Row::Op(p as u8, code[12 * p + i].instr));
    }
    to
}

// The instructions.
fn add_programs(page: &mut [u8], at: usize, counts: &[u8; 4], code: &[Slot; 48]) -> usize
    requires { (p : ℕ) → p < 4 → get_or counts.now p 0 ≤ 12 }
    ensures { LaidShort 1920 page.old at (concat_map (program_text counts.now code.now) (counting 0 4)) page.new result }
{
    let mut to = at;
    for p in 0..4 {
        to = add_program(page, to, p, counts[p] as usize, code);
    }
    to
}

// The text of a case.
pub fn lay(page: &mut [u8], case: Case) -> usize
    requires { (p : ℕ) → p < 4 → count_of case p ≤ 12 }
    ensures laid { Laid page.old 0 (text_of case) page.new result }
    ensures short { length (text_of case) ≤ 3600 }
{
    let behind_head = add(page, 0, Row::Head(case.procs, case.locs));
    let behind_words = add_words(page, behind_head, &case.memory);
    let behind_presets = add_presets(page, behind_words, &case.masks, &case.presets);
    add_programs(page, behind_presets, &case.counts, &case.code)
}
