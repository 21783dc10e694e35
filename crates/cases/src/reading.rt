// The case that a block holds, field by field.
ghost use Rattle.std.specs.Prelude.{◌≡◌, ℕ, ◌+◌, ◌*◌, ◌≤◌, ◌<◌, length, replicate};
ghost use Rattle.words.specs.Small.{each};
ghost use Rattle.words.specs.Refusals.{first_code_of};
ghost use Rattle.cases.specs.Instruction.{instr_of};
ghost use Rattle.cases.specs.Block.{byte as byte_of, word as word_of, refusals, marked, fault_of, slot_at, case_of, nothing as nothing_of};

use crate::bytes::{check, number, word};
use crate::faults::judge;
use crate::{Case, Expr, Fault, Instr, Slot};

// The first of codes 1 to 7 and 19 that a block gets, with its position.
pub fn refusal(block: &[u8]) -> Fault
    ensures { result ≡ fault_of block.now (first_code_of (refusals block.now)) }
{
    if block.len() != 512 {
        Fault {
            code: 1,
            position: 0,
        }
    } else if word(block, 510) as usize != check(block) {
        Fault {
            code: 2,
            position: 0,
        }
    } else {
        judge(block)
    }
}

// The instruction of an op and its fields.
fn instr_of(op: u8, d: u8, a: u8, b: u8, k: u16) -> Instr
    ensures { result ≡ instr_of op d a b k }
{
    match op {
        1 => Instr::Read(d, a),
        2 => Instr::Write(a, b),
        3 => Instr::Local(d, Expr::Constant(k)),
        4 => Instr::Local(d, Expr::Sum(a, b)),
        5 => Instr::Local(d, Expr::Difference(a, b)),
        6 => Instr::Local(d, Expr::Equal(a, b)),
        7 => Instr::Branch(a, k),
        8 => Instr::Goto(k),
        9 => Instr::Acquire(a),
        10 => Instr::Release(a),
        _ => Instr::Empty,
    }
}

// The instruction in slot n.
fn slot(block: &[u8], n: usize) -> Slot
    requires { n < 48 }
    ensures { result ≡ slot_at block.now n }
{
    let i = 92 + 6 * n;
    Slot {
        instr: instr_of(
            words::byte(block, i),
            words::byte(block, i + 1),
            words::byte(block, i + 2),
            words::byte(block, i + 3),
            word(block, i + 4),
        ),
    }
}

// 48 empty slots.
fn no_code() -> [Slot; 48]
    ensures { result ≡ replicate 48 (record { instr = Instr.Empty }) }
{
    [Slot {
        instr: Instr::Empty,
    }; 48]
}

// The instructions in all slots.
fn read_code(block: &[u8]) -> [Slot; 48]
    ensures { result ≡ each 48 (slot_at block.now) }
{
    let mut code = no_code();
    for n in 0..48 {
        code[n] = slot(block, n);
    }
    code
}

// The two-byte numbers that stand one after the other from a position on.
fn read_words<const N: usize>(block: &[u8], at: usize) -> [u16; N]
    requires { at + 2 * N ≤ 510 }
    ensures { result ≡ each N (λ (n : ℕ). word_of block.now (at + 2 * n)) }
{
    let mut words = [0; N];
    for n in 0..N {
        words[n] = word(block, at + 2 * n);
    }
    words
}

// The four bytes from a position on.
fn read_four(block: &[u8], at: usize) -> [u8; 4]
    requires { at < 510 }
    ensures { result ≡ each 4 (λ (p : ℕ). byte_of block.now (at + p)) }
{
    std::array::from_fn(|p| words::byte(block, at + p))
}

// Whether there is a usual bound.
pub fn usual(block: &[u8]) -> bool
    ensures { result ≡ marked block.now 2 }
{
    words::byte(block, 2) != 0
}

// The case that the block holds.
pub fn case_of(block: &[u8]) -> Case
    ensures { result ≡ case_of block.now }
{
    Case {
        procs: words::byte(block, 0),
        locs: words::byte(block, 1),
        counts: read_four(block, 4),
        masks: read_four(block, 8),
        presets: read_words(block, 12),
        memory: read_words(block, 76),
        code: read_code(block),
    }
}

// The refused case.
pub fn nothing() -> Case
    ensures { result ≡ nothing_of }
{
    Case {
        procs: 1,
        locs: 1,
        counts: [0; 4],
        masks: [0; 4],
        presets: [0; 32],
        memory: [0; 8],
        code: no_code(),
    }
}
