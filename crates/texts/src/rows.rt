// The bytes of a line, laid into a lent slice; each function answers the position behind them.
ghost use Rattle.std.specs.Prelude.{[], ◌∷◌, ◌+◌, ◌*◌, ◌≤◌, length};
ghost use Rattle.lines.specs.Laid.{Laid, LaidShort};
ghost use Rattle.texts.specs.Text.{body, expr_words, instr_words};
ghost use Rattle.texts.specs.Rows.{line_of, tails, numbered};

use crate::Row;
use cases::{Expr, Instr};

// A space and a number.
fn spaced(text: &mut [u8], at: usize, n: u16) -> usize
    ensures { LaidShort 6 text.old at (numbered [] (n ∷ [])) text.new result }
{
    let behind_gap = lines::word(text, at, b" ");
    lines::decimal(text, behind_gap, n as usize)
}

// A word, and numbers behind it.
fn numbered(text: &mut [u8], at: usize, word: &[u8], numbers: &[u16]) -> usize
    ensures { LaidShort (length word.now + 6 * length numbers.now) text.old at (numbered word.now numbers.now) text.new result }
{
    let mut end = lines::word(text, at, word);
    for n in numbers {
        end = spaced(text, end, *n);
    }
    end
}

// The words of a local instruction, a space before each.
fn expr(text: &mut [u8], at: usize, d: u8, e: Expr) -> usize
    ensures { LaidShort 26 text.old at (tails (expr_words d e)) text.new result }
{
    let to = d as u16;
    match e {
        Expr::Constant(n) => numbered(text, at, b" set", &[to, n]),
        Expr::Sum(a, b) => numbered(text, at, b" add", &[to, a as u16, b as u16]),
        Expr::Difference(a, b) => numbered(text, at, b" sub", &[to, a as u16, b as u16]),
        Expr::Equal(a, b) => numbered(text, at, b" eq", &[to, a as u16, b as u16]),
    }
}

// The words of an instruction, a space before each.
fn instr(text: &mut [u8], at: usize, i: Instr) -> usize
    ensures { LaidShort 26 text.old at (tails (instr_words i)) text.new result }
{
    match i {
        Instr::Empty => at,
        Instr::Read(d, a) => numbered(text, at, b" read", &[d as u16, a as u16]),
        Instr::Write(a, b) => numbered(text, at, b" write", &[a as u16, b as u16]),
        Instr::Local(d, e) => expr(text, at, d, e),
        Instr::Branch(a, l) => numbered(text, at, b" branch", &[a as u16, l]),
        Instr::Goto(l) => numbered(text, at, b" goto", &[l]),
        Instr::Acquire(a) => numbered(text, at, b" acquire", &[a as u16]),
        Instr::Release(a) => numbered(text, at, b" release", &[a as u16]),
    }
}

// The bytes of a line but for its line feed.
pub fn row_body(text: &mut [u8], at: usize, row: Row) -> usize
    ensures laid { Laid text.old at (body (line_of row)) text.new result }
    ensures short { length (body (line_of row)) ≤ 39 }
{
    match row {
        Row::Head(p, m) => numbered(text, at, b"case", &[p as u16, m as u16]),
        Row::Old(p, m, u) => numbered(text, at, b"case", &[p as u16, m as u16, u as u16]),
        Row::Mem(l, v) => numbered(text, at, b"mem", &[l as u16, v]),
        Row::Reg(p, k, v) => numbered(text, at, b"reg", &[p as u16, k as u16, v]),
        Row::Op(p, i) => {
            let behind_number = numbered(text, at, b"op", &[p as u16]);
            instr(text, behind_number, i)
        }
    }
}
