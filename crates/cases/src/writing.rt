// A case's bytes put into a buffer, from the front on.
ghost use Rattle.std.specs.Prelude.{◌≡◌, ◌++◌, ◌+◌, ◌-◌, ◌≤◌, length, take, replicate};
ghost use Rattle.words.specs.Small.{concat_map};
ghost use Rattle.cases.specs.Instruction.{two as two_of, six as six_of, local_bytes, instr_bytes};
ghost use Rattle.cases.specs.Block.{slot_bytes, contents, unbounded, check as check_of};
ghost use Rattle.cases.specs.Putting.{Put};
ghost use Rattle.cases.specs.Given.{PuttingWords, FilledWith};

use crate::bytes::check;
use crate::{Case, Expr, Instr, Slot};

// The six bytes of an op, its fields and its constant.
fn six(op: u8, d: u8, a: u8, b: u8, k: u16) -> [u8; 6]
    ensures { result ≡ six_of op d a b k }
{
    let [low, high] = k.to_le_bytes();
    [op, d, a, b, low, high]
}

// The six bytes of a local instruction.
fn local_bytes(d: u8, e: Expr) -> [u8; 6]
    ensures { result ≡ local_bytes d e }
{
    match e {
        Expr::Constant(n) => six(3, d, 0, 0, n),
        Expr::Sum(a, b) => six(4, d, a, b, 0),
        Expr::Difference(a, b) => six(5, d, a, b, 0),
        Expr::Equal(a, b) => six(6, d, a, b, 0),
    }
}

// The six bytes of an instruction.
fn instr_bytes(i: Instr) -> [u8; 6]
    ensures { result ≡ instr_bytes i }
{
    match i {
        Instr::Empty => six(0, 0, 0, 0, 0),
        Instr::Read(d, a) => six(1, d, a, 0, 0),
        Instr::Write(a, b) => six(2, 0, a, b, 0),
        Instr::Local(d, e) => local_bytes(d, e),
        Instr::Branch(a, l) => six(7, 0, a, 0, l),
        Instr::Goto(l) => six(8, 0, 0, 0, l),
        Instr::Acquire(a) => six(9, 0, a, 0, 0),
        Instr::Release(a) => six(10, 0, a, 0, 0),
    }
}

// Zeros from a position to the end.
pub fn clear(block: &mut [u8], from: usize)
    requires { from ≤ length block.old }
    ensures { block.new ≡ take from block.old ++ replicate (length block.old - from) 0 }
{
    block[from..].fill(0);
}

// Bytes put at a position.
fn put(block: &mut [u8], at: usize, bytes: &[u8])
    requires { at + length bytes.now ≤ length block.old }
    ensures { Put block.old at bytes.now block.new }
{
    block[at..at + bytes.len()].copy_from_slice(bytes);
}

// Words put at a position, two bytes each.
fn put_words(block: &mut [u8], at: usize, words: &[u16])
    requires { PuttingWords block.old at words.now }
    ensures { Put block.old at (concat_map two_of words.now) block.new }
{
    for i in 0..words.len() {
        put(block, at + 2 * i, &words[i].to_le_bytes());
    }
}

// Instructions put from position 92 on, six bytes each.
fn put_code(block: &mut [u8], code: &[Slot; 48])
    requires { length block.old ≡ 512 }
    ensures { Put block.old 92 (concat_map slot_bytes code.now) block.new }
{
    for n in 0..48 {
        put(block, 92 + 6 * n, &instr_bytes(code[n].instr));
    }
}

// Bytes 0 to 11 of the block that holds a case.
fn put_head(case: &Case, block: &mut [u8])
    requires { length block.old ≡ 512 }
    ensures { Put block.old 0 (take 12 (contents case.now)) block.new }
{
    put(block, 0, &[case.procs, case.locs, 0, 0]);
    put(block, 4, &case.counts);
    put(block, 8, &case.masks);
}

// Bytes 0 to 509 of the block that holds a case.
pub fn fill(case: &Case, block: &mut [u8])
    requires { length block.old ≡ 512 }
    ensures { FilledWith case.now block.new }
{
    put_head(case, block);
    put_words(block, 12, &case.presets);
    put_words(block, 76, &case.memory);
    put_code(block, &case.code);
    clear(block, 380);
}

// The usual bound taken away, and the check put behind the bytes that it is of.
pub fn sign(block: &mut [u8])
    requires { length block.old ≡ 512 }
    ensures { block.new ≡ take 510 (unbounded block.old) ++ two_of (check_of (unbounded block.old)) }
{
    block[2] = 0;
    let sum = check(block) as u16;
    put(block, 510, &sum.to_le_bytes());
}
