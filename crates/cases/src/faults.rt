// Which bytes of a block are bad for codes 3 to 7 and 19, and the first code with its lowest bad position.
ghost use Rattle.std.specs.Prelude.{◌≡◌, ℕ, ◌≤◌, ◌<◌, get_or, unwrap_or, IfSome};
ghost use Rattle.words.specs.Refusals.{first_code_of};
ghost use Rattle.cases.specs.Instruction.{bad_field, field_at, field_of};
ghost use Rattle.cases.specs.Block.{within as within_of, marked as is_marked, no_proc, no_loc, used as is_used, bad3 as is_bad3, bad4 as is_bad4, zero5 as must_be_zero5, bad5 as is_bad5, bad_byte, bad6 as is_bad6, bad7 as is_bad7, assigns_at, is_set, reads_at, bad19 as is_bad19, bad as is_bad, lowest as lowest_of, faults, fault_of};
ghost use Rattle.cases.specs.Given.{StartOf, EndOf, in_use, Within, Skipped};

use crate::Fault;
use crate::bytes::{number, word};

// Position i is one of from, from + 1, .., to - 1.
fn within(from: usize, to: usize, i: usize) -> bool
    ensures { result ≡ within_of from to i }
{
    from <= i && i < to
}

// The byte at position i is not zero.
fn marked(block: &[u8], i: usize) -> bool
    ensures { result ≡ is_marked block.now i }
{
    words::byte(block, i) != 0
}

// Processor p is absent.
fn no_proc(block: &[u8], p: usize) -> bool
    ensures { result ≡ no_proc block.now p }
{
    number(block, 0) <= p
}

// Location l is absent.
fn no_loc(block: &[u8], l: usize) -> bool
    ensures { result ≡ no_loc block.now l }
{
    number(block, 1) <= l
}

// Instruction n of processor p is used.
fn used(block: &[u8], p: usize, n: usize) -> bool
    requires { p < 510 }
    ensures { result ≡ is_used block.now p n }
{
    n < number(block, 4 + p)
}

// Code 3: bytes 0 to 3.
fn bad3(block: &[u8], i: usize) -> bool
    ensures { result ≡ is_bad3 block.now i }
{
    let procs = number(block, 0);
    let locs = number(block, 1);
    let bound = number(block, 2);
    ((i == 0) & ((procs == 0) | (4 < procs)))
        | ((i == 1) & ((locs == 0) | (8 < locs)))
        | ((i == 2) & (96 < bound))
        | ((i == 3) & marked(block, 3))
}

// Code 4: counts.
fn bad4(block: &[u8], i: usize) -> bool
    ensures { result ≡ is_bad4 block.now i }
{
    within(4, 8, i)
        & ((12 < number(block, i)) | (no_proc(block, i.saturating_sub(4)) & marked(block, i)))
}

// A byte of 8..91 that must be zero.
fn zero5(block: &[u8], i: usize) -> bool
    requires { i < 510 }
    ensures { result ≡ must_be_zero5 block.now i }
{
    let p = i.saturating_sub(12) / 16;
    let mask = number(block, 8 + p) as u64;
    let set = words::has(mask, i.saturating_sub(12) / 2 % 8);
    (within(8, 12, i) & no_proc(block, i.saturating_sub(8)))
        | (within(12, 76, i) & (no_proc(block, p) | !set))
        | (within(76, 92, i) & no_loc(block, i.saturating_sub(76) / 2))
}

// Code 5: such a byte that is not.
fn bad5(block: &[u8], i: usize) -> bool
    requires { i < 510 }
    ensures { result ≡ is_bad5 block.now i }
{
    zero5(block, i) & marked(block, i)
}

// What a byte after the op may be: zero, the register assigned, a register read, any byte, the low byte of a label.
#[derive(Clone, Copy, PartialEq, Eq)]
enum FieldKind {
    Zeroed,
    Assigned,
    Read,
    Free,
    Label,
}

// What the five bytes after this op may be.
fn fields(op: usize) -> [FieldKind; 5]
    ensures { (k : ℕ) → field_of (get_or result k FieldKind.Zeroed) ≡ field_at op k }
{
    use FieldKind::{Assigned, Free, Label, Read, Zeroed};
    match op {
        1 => [Assigned, Read, Zeroed, Zeroed, Zeroed],
        2 => [Zeroed, Read, Read, Zeroed, Zeroed],
        3 => [Assigned, Zeroed, Zeroed, Free, Free],
        4 | 5 | 6 => [Assigned, Read, Read, Zeroed, Zeroed],
        7 => [Zeroed, Read, Zeroed, Label, Free],
        8 => [Zeroed, Zeroed, Zeroed, Label, Free],
        9 | 10 => [Zeroed, Read, Zeroed, Zeroed, Zeroed],
        _ => [Zeroed; 5],
    }
}

// What byte k after this op may be.
fn field(op: usize, k: usize) -> FieldKind
    requires { k < 5 }
    ensures { field_of result ≡ field_at op k }
{
    fields(op)[k]
}

// The byte v is bad for this field; a label is w, of a processor with n instructions.
fn bad_field(field: FieldKind, n: usize, v: usize, w: usize) -> bool
    ensures { result ≡ bad_field (field_of field) n v w }
{
    match field {
        FieldKind::Zeroed => v != 0,
        FieldKind::Assigned | FieldKind::Read => 8 <= v,
        FieldKind::Free => false,
        FieldKind::Label => n < w,
    }
}

// The byte at position i of a slot with this op, of a processor with n instructions, is bad.
fn bad_byte(block: &[u8], op: usize, n: usize, i: usize) -> bool
    requires { i < 510 }
    ensures { result ≡ bad_byte block.now op n i }
{
    let k = i.saturating_sub(92) % 6;
    if k == 0 {
        op == 0 || 10 < op
    } else {
        bad_field(
            field(op, k - 1),
            n,
            number(block, i),
            word(block, i) as usize,
        )
    }
}

// Code 6: used instructions.
fn bad6(block: &[u8], i: usize) -> bool
    requires { i < 510 }
    ensures { result ≡ is_bad6 block.now i }
{
    let p = i.saturating_sub(92) / 72;
    let op = number(block, i.saturating_sub(i.saturating_sub(92) % 6));
    within(92, 380, i)
        & used(block, p, i.saturating_sub(92) % 72 / 6)
        & bad_byte(block, op, number(block, 4 + p), i)
}

// Code 7: unused slots, and 380..509.
fn bad7(block: &[u8], i: usize) -> bool
    requires { i < 510 }
    ensures { result ≡ is_bad7 block.now i }
{
    let used = used(
        block,
        i.saturating_sub(92) / 72,
        i.saturating_sub(92) % 72 / 6,
    );
    ((within(92, 380, i) & !used) | within(380, 510, i)) & marked(block, i)
}

// Instruction n of processor p is used and assigns register r.
fn assigns_at(block: &[u8], p: usize, n: usize, r: usize) -> bool
    requires { (p < 510) × (n < 12) }
    ensures { result ≡ assigns_at block.now p n r }
{
    let at = 72 * p + 6 * n;
    used(block, p, n)
        & (field(number(block, 92 + at), 0) == FieldKind::Assigned)
        & (number(block, 93 + at) == r)
}

// Register r of processor p is set: by a preset, or by a used instruction of the processor.
fn is_set(block: &[u8], p: usize, r: usize) -> bool
    requires { p < 510 }
    ensures { result ≡ is_set block.now p r }
{
    let mask = number(block, 8 + p) as u64;
    let mut set = words::has(mask, r);
    for n in 0..12 {
        set |= assigns_at(block, p, n, r);
    }
    set
}

// The byte at position i, of a slot with this op, names a register that the instruction reads.
fn reads_at(op: usize, i: usize) -> bool
    ensures { result ≡ reads_at op i }
{
    let k = i.saturating_sub(92) % 6;
    k != 0 && field(op, k - 1) == FieldKind::Read
}

// Code 19: registers that are read and not set.
fn bad19(block: &[u8], i: usize) -> bool
    requires { i < 510 }
    ensures { result ≡ is_bad19 block.now i }
{
    let p = i.saturating_sub(92) / 72;
    let op = number(block, i.saturating_sub(i.saturating_sub(92) % 6));
    let reads = within(92, 380, i)
        & used(block, p, i.saturating_sub(92) % 72 / 6)
        & reads_at(op, i);
    reads && !is_set(block, p, number(block, i))
}

// Position i is bad for a code.
fn bad(block: &[u8], code: u8, i: usize) -> bool
    requires { (3 ≤ code) × (i < 510) }
    ensures { result ≡ is_bad block.now code i }
{
    match code {
        3 => bad3(block, i),
        4 => bad4(block, i),
        5 => bad5(block, i),
        6 => bad6(block, i),
        7 => bad7(block, i),
        _ => (code == 19) & bad19(block, i),
    }
}

// The first position that a code speaks of.
fn start_of(code: u8) -> usize
    requires { 3 ≤ code }
    ensures { StartOf code result }
{
    match code {
        3 => 0,
        4 => 4,
        5 => 8,
        _ => 92,
    }
}

// The first position after those that a code speaks of.
fn end_of(code: u8) -> usize
    requires { 3 ≤ code }
    ensures { EndOf code result }
{
    match code {
        3 => 4,
        4 => 8,
        5 => 92,
        7 => 510,
        _ => 380,
    }
}

// The first position from `from` on whose byte is not zero, or the end where there is none before it.
fn next_marked(block: &[u8], from: usize, end: usize) -> usize
    requires { Within from end }
    ensures { Skipped (is_marked block.now) from result }
{
    for i in from..end {
        if marked(block, i) {
            return i;
        }
    }
    from.max(end)
}

// The position i where a used instruction stands, or else where the next processor's instructions start.
fn next_used(block: &[u8], i: usize) -> usize
    requires { i ≤ 510 }
    ensures { Skipped (in_use block.now) i result }
{
    let n = i.saturating_sub(92);
    if i < 380 && !used(block, n / 72, n % 72 / 6) {
        164 + n / 72 * 72
    } else {
        i
    }
}

// The position i, or a later one with none before it that is bad for a code; `end` is where the code's positions end.
fn skip(block: &[u8], code: u8, i: usize, end: usize) -> usize
    requires { Within i end }
    ensures { Skipped (is_bad block.now code) i result }
{
    match code {
        5 | 7 => next_marked(block, i, end),
        6 | 19 => next_used(block, i),
        _ => i,
    }
}

// The lowest position that is bad for a code, if there is one.
fn lowest(block: &[u8], code: u8) -> Option<usize>
    requires { 3 ≤ code }
    ensures { (unwrap_or result 510 ≡ lowest_of 510 (is_bad block.now code)) × IfSome result (λ i. i < 510) }
{
    let end = end_of(code);
    let mut i = skip(block, code, start_of(code), end);
    while i < end {
        if bad(block, code, i) {
            return Some(i);
        }
        i = skip(block, code, i + 1, end);
    }
    None
}

// The first of codes 3 to 7 and 19 with a bad position, and its lowest.
pub fn judge(block: &[u8]) -> Fault
    ensures { result ≡ fault_of block.now (first_code_of (faults block.now)) }
{
    for code in [3, 4, 5, 6, 7, 19] {
        if let Some(position) = lowest(block, code) {
            return Fault { code, position };
        }
    }
    Fault {
        code: 0,
        position: 0,
    }
}
