// A case in the making, line by line.
ghost use Rattle.std.specs.Prelude.{◌≡◌, ℕ, ◌+◌, ◌^◌, ◌<◌};
ghost use Rattle.std.proofs.Math.Option.{Option};
ghost use Rattle.words.specs.Small.{or_zero};
ghost use Rattle.cases.specs.Block.{nothing as nothing_of};
ghost use Rattle.judging.specs.Draft.{Draft, low_expr, low_instr, label_of, step, begin};
ghost use Rattle.texts.specs.Lines.{head, mem, reg, op};
ghost use Rattle.judging.specs.Parse.{onward as onward_of};
ghost use Rattle.texts.specs.Rows.{line_of};
ghost use Rattle.drafting.specs.Sheet.{Shows, Holds};

use crate::Sheet;
use cases::{Case, Expr, Instr, Slot};
use texts::Row;

// A memory word.
fn step_mem(mut s: Sheet, l: u8, v: u16) -> Option<Sheet>
    ensures { (d : Draft) → Shows s d → Holds result (step d (mem l v)) }
{
    let i = l as usize;
    if i >= 8 || s.next > i || l >= s.locs || v == 0 {
        return None;
    }
    s.memory[i] = v;
    s.next = i + 1;
    Some(s)
}

// Bit k of a mask set that was not; a mask holds 8 bits.
fn marked(mask: u8, k: usize) -> u8
    requires { k < 8 }
    ensures { mask + 2 ^ k < 256 → result ≡ mask + 2 ^ k }
{
    mask.saturating_add(1 << k)
}

// A preset.
fn step_reg(mut s: Sheet, p: u8, k: u8, v: u16) -> Option<Sheet>
    ensures { (d : Draft) → Shows s d → Holds result (step d (reg p k v)) }
{
    let q = p as usize;
    let j = k as usize;
    let n = 8 * q + j;
    if q >= 4 || j >= 8 || s.next > 8 + n || p >= s.procs {
        return None;
    }
    s.masks[q] = marked(s.masks[q], j);
    s.presets[n] = v;
    s.next = 8 + n + 1;
    Some(s)
}

// Registers are below 8 and the instruction is not the empty one.
fn low_expr(e: Expr) -> bool
    ensures { result ≡ low_expr e }
{
    match e {
        Expr::Constant(_) => true,
        Expr::Sum(a, b) | Expr::Difference(a, b) | Expr::Equal(a, b) => a < 8 && b < 8,
    }
}

fn low_instr(i: Instr) -> bool
    ensures { result ≡ low_instr i }
{
    match i {
        Instr::Empty => false,
        Instr::Read(a, b) | Instr::Write(a, b) => a < 8 && b < 8,
        Instr::Local(d, e) => d < 8 && low_expr(e),
        Instr::Branch(a, _) | Instr::Acquire(a) | Instr::Release(a) => a < 8,
        Instr::Goto(_) => true,
    }
}

// The label of an instruction, 0 where it has none.
fn label(i: Instr) -> u16
    ensures { result ≡ label_of i }
{
    match i {
        Instr::Branch(_, l) | Instr::Goto(l) => l,
        _ => 0,
    }
}

// An instruction. The first line of a processor closes the one before it, whose labels must by then be reached.
fn step_op(mut s: Sheet, p: u8, x: Instr) -> Option<Sheet>
    ensures { (d : Draft) → Shows s d → Holds result (step d (op p x)) }
{
    let q = p as usize;
    if q >= 4 || p >= s.procs {
        return None;
    }
    let start = 40 + 12 * q;
    let i = s.next.saturating_sub(start);
    let l = label(x);
    let open = i > 0 || s.need <= s.next;
    if i >= 12 || !low_instr(x) || l > 12 || !open {
        return None;
    }
    s.counts[q] = (i + 1) as u8;
    s.code[12 * q + i] = Slot { instr: x };
    s.next = start + i + 1;
    s.need = s.need.max(start + l as usize);
    Some(s)
}

// The refused case: one processor, one location and nothing else.
pub fn nothing() -> Case
    ensures { result ≡ nothing_of }
{
    cases::read_case(b"").case
}

// The first line's numbers; b is the usual bound of an old text, 0 where there is none.
fn start(p: u8, m: u8, b: u8) -> Option<Sheet>
    ensures { (o : Option ℕ) → or_zero o ≡ b → Holds result (begin (head p m o)) }
{
    let fits = 0 < p && p < 5 && 0 < m && m < 9 && b <= 96;
    if !fits {
        return None;
    }
    Some(Sheet {
        procs: p,
        locs: m,
        dropped: b,
        next: 0,
        need: 0,
        counts: [0; 4],
        masks: [0; 4],
        presets: [0; 32],
        memory: [0; 8],
        code: [Slot {
            instr: Instr::Empty,
        }; 48],
    })
}

// The first line.
fn first(row: Row) -> Option<Sheet>
    ensures { Holds result (begin (line_of row)) }
{
    match row {
        Row::Head(p, m) => start(p, m, 0),
        Row::Old(p, m, b) => start(p, m, b),
        _ => None,
    }
}

// A further line.
fn further(s: Sheet, row: Row) -> Option<Sheet>
    ensures { (d : Draft) → Shows s d → Holds result (step d (line_of row)) }
{
    match row {
        Row::Mem(l, v) => step_mem(s, l, v),
        Row::Reg(p, k, v) => step_reg(s, p, k, v),
        Row::Op(p, x) => step_op(s, p, x),
        _ => None,
    }
}

// One line more.
pub fn onward(sheet: Option<Sheet>, row: Row) -> Option<Sheet>
    ensures { (o : Option Draft) → Holds sheet o → Holds result (onward_of o (line_of row)) }
{
    match sheet {
        None => first(row),
        Some(s) => further(s, row),
    }
}
