// The words of a line, and the line that they are.
ghost use Rattle.std.specs.Prelude.{◌≡◌, ◌<◌};
ghost use Rattle.judging.specs.Parse.{words_in, word_at, value as value_of, small_at, large_at, guess_expr, guess_lock, guess_jump, guess_instr, guess, same, parse as parse_of};
ghost use Rattle.texts.specs.Rows.{line_of};
ghost use Rattle.scanning.specs.Parsed.{line_in};

use cases::{Expr, Instr};
use texts::{Row, row_body};

// Word k of a line, empty where there is none.
fn word(p: &[u8], k: usize) -> &[u8]
    ensures { result.now ≡ word_at (words_in p.now) k }
{
    p.split(|b| *b == b' ').nth(k).unwrap_or(b"")
}

// Whether word k is w. (A `match` on the bytes leaves the goal of its last arm open.)
fn is_word(p: &[u8], k: usize, w: &[u8]) -> bool
    ensures { result ≡ same (word_at (words_in p.now) k) w.now }
{
    word(p, k) == w
}

// The number that word k is, if it is one.
fn value(p: &[u8], k: usize) -> u32
    ensures { (result ≡ value_of (word_at (words_in p.now) k)) × (result < 1000000) }
{
    let mut v: u32 = 0;
    for b in word(p, k) {
        v = (10 * v + *b as u32 + 999952) % 1000000;
    }
    v
}

// A word k that is a byte, two bytes; a larger number becomes the largest.
fn small(p: &[u8], k: usize) -> u8
    ensures { result ≡ small_at (words_in p.now) k }
{
    u8::try_from(value(p, k)).unwrap_or(u8::MAX)
}

fn large(p: &[u8], k: usize) -> u16
    ensures { result ≡ large_at (words_in p.now) k }
{
    u16::try_from(value(p, k)).unwrap_or(u16::MAX)
}

// The expression that a line's words are, if they are one.
fn guess_expr(p: &[u8]) -> Expr
    ensures { result ≡ guess_expr (words_in p.now) }
{
    if is_word(p, 2, b"set") {
        Expr::Constant(large(p, 4))
    } else if is_word(p, 2, b"add") {
        Expr::Sum(small(p, 4), small(p, 5))
    } else if is_word(p, 2, b"sub") {
        Expr::Difference(small(p, 4), small(p, 5))
    } else {
        Expr::Equal(small(p, 4), small(p, 5))
    }
}

// The instruction: acquire, release or a local one; branch, goto or one of these; read, write or one of these.
fn guess_lock(p: &[u8]) -> Instr
    ensures { result ≡ guess_lock (words_in p.now) }
{
    let a = small(p, 3);
    if is_word(p, 2, b"acquire") {
        Instr::Acquire(a)
    } else if is_word(p, 2, b"release") {
        Instr::Release(a)
    } else {
        Instr::Local(a, guess_expr(p))
    }
}

fn guess_jump(p: &[u8]) -> Instr
    ensures { result ≡ guess_jump (words_in p.now) }
{
    if is_word(p, 2, b"branch") {
        Instr::Branch(small(p, 3), large(p, 4))
    } else if is_word(p, 2, b"goto") {
        Instr::Goto(large(p, 3))
    } else {
        guess_lock(p)
    }
}

fn guess_instr(p: &[u8]) -> Instr
    ensures { result ≡ guess_instr (words_in p.now) }
{
    if is_word(p, 2, b"read") {
        Instr::Read(small(p, 3), small(p, 4))
    } else if is_word(p, 2, b"write") {
        Instr::Write(small(p, 3), small(p, 4))
    } else {
        guess_jump(p)
    }
}

// The line.
fn guess_row(p: &[u8]) -> Row
    ensures { line_of result ≡ guess (words_in p.now) }
{
    let a = small(p, 1);
    if is_word(p, 0, b"case") {
        let locs = small(p, 2);
        if is_word(p, 3, b"") {
            Row::Head(a, locs)
        } else {
            Row::Old(a, locs, small(p, 3))
        }
    } else if is_word(p, 0, b"mem") {
        Row::Mem(a, large(p, 2))
    } else if is_word(p, 0, b"reg") {
        Row::Reg(a, small(p, 2), large(p, 3))
    } else {
        Row::Op(a, guess_instr(p))
    }
}

// What a line is: the guess, if its bytes are these.
pub fn parse(p: &[u8]) -> Option<Row>
    ensures { line_in result ≡ parse_of p.now }
{
    let row = guess_row(p);
    let mut bytes = [0u8; 40];
    let n = row_body(&mut bytes, 0, row);
    if &bytes[..n] == p { Some(row) } else { None }
}
