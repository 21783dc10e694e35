// The line of an outcome, and the list of all.
ghost use Rattle.std.specs.Prelude.{◌+◌, ◌*◌, ◌/◌, ◌≤◌, ◌<◌, length};
ghost use Rattle.words.specs.Small.{concat_map};
ghost use Rattle.records.specs.Buffer.{records_in};
ghost use Rattle.lines.specs.Laid.{Laid, LaidShort};
ghost use Rattle.lines.specs.Outcome.{gap as gap_of, register as register_of, registers as registers_of, register_at};
ghost use Rattle.lines.specs.Outcome.{processor as processor_of, outcome_line, list_text};

use crate::answers::header;
use crate::laying::put;
use crate::number::decimal;

// A register of three bytes.
fn register(text: &mut [u8], at: usize, defined: u8, high: u8, low: u8) -> usize
    ensures { Laid text.old at (register_of defined high low) text.new result }
{
    if defined == 0 {
        put(text, at, b'-')
    } else {
        decimal(text, at, 256 * (high as usize) + low as usize)
    }
}

// Register k of processor p, and a space before it.
fn register_at(text: &mut [u8], at: usize, outcome: &[u8], p: usize, k: usize) -> usize
    requires { (p < 256) × (k < 8) }
    ensures { LaidShort 6 text.old at (register_at outcome.now p k) text.new result }
{
    let behind_gap = put(text, at, b' ');
    let from = 24 * p + 3 * k;
    let defined = words::byte(outcome, from);
    let high = words::byte(outcome, from + 1);
    let low = words::byte(outcome, from + 2);
    register(text, behind_gap, defined, high, low)
}

// Registers 0 to 7 of processor p.
fn registers(text: &mut [u8], at: usize, outcome: &[u8], p: usize) -> usize
    requires { p < 256 }
    ensures { LaidShort 48 text.old at (registers_of outcome.now p) text.new result }
{
    let mut end = at;
    for k in 0..8 {
        end = register_at(text, end, outcome, p, k);
    }
    end
}

// A space before every processor but the first.
fn gap(text: &mut [u8], at: usize, p: usize) -> usize
    ensures { Laid text.old at (gap_of p) text.new result }
{
    if p == 0 { at } else { put(text, at, b' ') }
}

// Processor p and its registers.
fn processor(text: &mut [u8], at: usize, outcome: &[u8], p: usize) -> usize
    requires { p < 256 }
    ensures { LaidShort 53 text.old at (processor_of outcome.now p) text.new result }
{
    let behind_gap = gap(text, at, p);
    let behind_letter = put(text, behind_gap, b'p');
    let behind_number = decimal(text, behind_letter, p);
    registers(text, behind_number, outcome, p)
}

// The line of an outcome: each present processor.
fn outcome_line(text: &mut [u8], at: usize, outcome: &[u8], procs: u8) -> usize
    ensures { LaidShort (53 * procs + 1) text.old at (outcome_line procs outcome.now) text.new result }
{
    let mut end = at;
    for p in 0..procs as usize {
        end = processor(text, end, outcome, p);
    }
    put(text, end, b'\n')
}

// A line for each record.
fn outcome_lines(text: &mut [u8], at: usize, records: &[u8], procs: u8) -> usize
    ensures { LaidShort ((53 * procs + 1) * (length records.now / 96)) text.old at (concat_map (outcome_line procs) (records_in (length records.now / 96) records.now)) text.new result }
{
    let mut end = at;
    for k in 0..records.len() / 96 {
        end = outcome_line(text, end, &records[96 * k..96 * k + 96], procs);
    }
    end
}

// The list of the records, of 96 bytes each: the header, and their lines.
pub fn list(text: &mut [u8], at: usize, records: &[u8], cut: bool, procs: u8) -> usize
    ensures laid { Laid text.old at (list_text procs cut (records_in (length records.now / 96) records.now)) text.new result }
    ensures short { length (list_text procs cut (records_in (length records.now / 96) records.now)) ≤ 38 + (53 * procs + 1) * (length records.now / 96) }
{
    let behind_header = header(text, at, records.len() / 96, cut);
    outcome_lines(text, behind_header, records, procs)
}
