// An entry as one word: read from it, and packed.
ghost use Rattle.std.specs.Prelude.{◌≡◌, cond, ◌+◌, ◌*◌, ◌%◌, ◌<◌, get_or};
ghost use Rattle.rules.specs.Kinds.{kind};
ghost use Rattle.machine.specs.Fit.{Fit};
ghost use Rattle.machine.specs.Lent.{Program};
ghost use Rattle.machine.specs.Word.{instr_in, instr_from, coded as coded_of, local_code, code_of, entry_of, Packable};

use crate::Entry;
use cases::{Case, Expr, Instr};

// The instruction of an op, of d and of the number of its other fields.
fn instr_in(op: u8, d: u8, n: u16) -> Instr
    ensures { result ≡ instr_in op d n }
{
    let a = (n % 8) as u8;
    let b = (n / 8 % 8) as u8;
    let l = n / 8 / 8;
    match op {
        1 => Instr::Read(d, a),
        2 => Instr::Write(a, b),
        3 => Instr::Local(d, Expr::Constant(n)),
        4 => Instr::Local(d, Expr::Sum(a, b)),
        5 => Instr::Local(d, Expr::Difference(a, b)),
        6 => Instr::Local(d, Expr::Equal(a, b)),
        7 => Instr::Branch(a, l),
        8 => Instr::Goto(l),
        9 => Instr::Acquire(a),
        10 => Instr::Release(a),
        _ => Instr::Empty,
    }
}

// The instruction of a number.
fn instr_from(n: u64) -> Instr
    requires { n < 8388608 }
    ensures { result ≡ instr_from n }
{
    let op = (n % 16) as u8;
    let d = (n / 16 % 8) as u8;
    let rest = (n / 16 / 8) as u16;
    instr_in(op, d, rest)
}

// The instruction at a slot of a program.
pub fn instr_at(program: &[u64; 48], n: usize) -> Instr
    requires { n < 48 }
    ensures { result ≡ instr_from (get_or program.now n 0 % 8388608) }
{
    instr_from(program[n] % 8388608)
}

// The entry of action k.
pub fn entry_at(acts: &[u64; 48], k: usize) -> Entry
    requires { k < 48 }
    ensures { result ≡ entry_of (get_or acts.now k 0) }
{
    let w = acts[k];
    let instr = instr_from(w % 8388608);
    let from_proc = w / 8388608;
    let from_place = from_proc / 4;
    let from_first = from_place / 16;
    let from_second = from_first / 128;
    let from_loc = from_second / 128;
    let from_done = from_loc / 8;
    let from_result = from_done / 2;
    Entry {
        instr,
        proc: (from_proc % 4) as u8,
        place: (from_place % 16) as u8,
        first: (from_first % 128) as u8,
        second: (from_second % 128) as u8,
        loc: (from_loc % 8) as u8,
        done: from_done % 2 == 1,
        result: (from_result % 65536) as u16,
    }
}

// The kind of action k, as the number that `kind` of the rules gives.
pub fn kind_at(acts: &[u64; 48], k: usize) -> u8
    requires { k < 48 }
    ensures { (result ≡ kind (entry_of (get_or acts.now k 0)).instr) × (result < 8) }
{
    let op = (acts[k] % 16) as u8;
    match op {
        0..=2 => op,
        3..=6 => 3,
        7..=10 => op - 3,
        _ => 0,
    }
}

// The number of an op with its fields, each cut to its width.
fn coded(op: u8, d: u8, a: u8, b: u8, l: u16) -> u64
    requires { op < 16 }
    ensures { (result ≡ coded_of op d a b l) × (result < 8388608) }
{
    let from_b = (b % 8) as u64 + 8 * (l % 16) as u64;
    let from_d = (d % 8) as u64 + 8 * ((a % 8) as u64 + 8 * from_b);
    op as u64 + 16 * from_d
}

// The number of a constant.
fn constant_code(d: u8, n: u16) -> u64
    ensures { (result ≡ 3 + 16 * (d % 8 + 8 * n)) × (result < 8388608) }
{
    3 + 16 * ((d % 8) as u64 + 8 * n as u64)
}

// The number of a local instruction.
fn local_code(d: u8, e: Expr) -> u64
    ensures { (result ≡ local_code d e) × (result < 8388608) }
{
    match e {
        Expr::Constant(n) => constant_code(d, n),
        Expr::Sum(a, b) => coded(4, d, a, b, 0),
        Expr::Difference(a, b) => coded(5, d, a, b, 0),
        Expr::Equal(a, b) => coded(6, d, a, b, 0),
    }
}

// The number of an instruction.
fn code_of(i: Instr) -> u64
    ensures { (result ≡ code_of i) × (result < 8388608) }
{
    match i {
        Instr::Empty => 0,
        Instr::Read(d, a) => coded(1, d, a, 0, 0),
        Instr::Write(a, b) => coded(2, 0, a, b, 0),
        Instr::Local(d, e) => local_code(d, e),
        Instr::Branch(a, l) => coded(7, 0, a, 0, l),
        Instr::Goto(l) => coded(8, 0, 0, 0, l),
        Instr::Acquire(a) => coded(9, 0, a, 0, 0),
        Instr::Release(a) => coded(10, 0, a, 0, 0),
    }
}

// The program of a case: the numbers of its instructions, each at its slot.
pub fn program(case: &Case) -> [u64; 48]
    requires { Fit case.now }
    ensures { Program case.now result }
{
    let mut out = [0u64; 48];
    for n in 0..48 {
        out[n] = code_of(case.code[n].instr);
    }
    out
}

// Whether an action is done, with its result.
fn result_code(done: bool, res: u16) -> u64
    ensures { (result ≡ cond done 1 0 + 2 * res) × (result < 131072) }
{
    done as u64 + 2 * res as u64
}

// The word that holds an entry.
pub fn packed(e: Entry) -> u64
    requires { Packable e }
    ensures { entry_of result ≡ e }
{
    let from_done = result_code(e.done, e.result);
    let from_second = e.second as u64 + 128 * (e.loc as u64 + 8 * from_done);
    let from_place = e.place as u64 + 16 * (e.first as u64 + 128 * from_second);
    code_of(e.instr) + 8388608 * (e.proc as u64 + 4 * from_place)
}
