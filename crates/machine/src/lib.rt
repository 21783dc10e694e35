// The machine in arrays: its actions, one order and locks; its start, and what its registers and queues hold.
#![tactic(auto)]

mod word;

ghost use Rattle.std.specs.Prelude.{◌≡◌, ◌/◌, ◌%◌, ◌≤◌, ◌<◌, get_or};
ghost use Rattle.cases.specs.declared.Case.{Case as TheCase};
ghost use Rattle.cases.specs.Case.{preset_of};
ghost use Rattle.words.specs.Small.{or_zero};
ghost use Rattle.rules.specs.State.{State, initial, value_of, item_value, waiting};
ghost use Rattle.rules.specs.Result.{finished as is_finished, register_bytes, register_of, registers as registers_of};
ghost use Rattle.machine.specs.Shown.{name_of, names_of, shown_value, shown_entry, shown, Presets, Acts};
ghost use Rattle.machine.specs.Fit.{Fit};
ghost use Rattle.machine.specs.Kept.{Kept};
ghost use Rattle.machine.specs.Valid.{Valid};
ghost use Rattle.machine.specs.Lent.{Ending};

use cases::{Case, Instr};
pub use word::{entry_at, instr_at, kind_at, packed, program};

// An action: its processor and place, the names of the registers that it reads, its location, and its result once it is done.
#[derive(Clone, Copy)]
pub struct Entry {
    pub instr: Instr,
    pub proc: u8,
    pub place: u8,
    pub first: u8,
    pub second: u8,
    pub loc: u8,
    pub done: bool,
    pub result: u16,
}

// Register k of processor p has its name at 8p + k, each word of acts holds an entry, row b has the items that stand before item b.
// Sets of items are kept ready: 0 to 7 the write items of each location, 8 to 15 the items of each kind, 16 to 19 the queue of each processor, 20 the items that have their value.
#[derive(Clone, Copy)]
pub struct Machine {
    pub issued: usize,
    pub places: [u8; 4],
    pub names: [u8; 32],
    pub holders: [u8; 8],
    pub acts: [u64; 48],
    pub rows: [u64; 56],
    pub sets: [u64; 21],
}

// The value of a register, 0 where it is undefined.
pub fn or_zero(v: Option<u16>) -> u16
    ensures { result ≡ or_zero (shown_value v) }
{
    v.unwrap_or(0)
}

// What action k gives.
fn value_at(m: &Machine, k: usize) -> Option<u16>
    requires { m.now.issued ≤ 48 }
    ensures { (c : TheCase) (s : State) → Acts c m.now.issued m.now.acts s → shown_value result ≡ (s.actions k).result }
{
    if k < m.issued {
        let e = entry_at(&m.acts, k);
        if e.done {
            return Some(e.result);
        }
    }
    None
}

// What register n, counted over all processors, starts with.
pub fn preset_of(case: &Case, n: usize) -> Option<u16>
    requires { n < 32 }
    ensures { (c : TheCase) → Presets c case.now.masks case.now.presets → shown_value result ≡ preset_of c (n / 8) (n % 8) }
{
    if words::has(case.masks[n / 8] as u64, n % 8) {
        Some(case.presets[n])
    } else {
        None
    }
}

// The value that a name stands for.
pub fn named(case: &Case, m: &Machine, name: u8) -> Option<u16>
    requires { m.now.issued ≤ 48 }
    ensures { (c : TheCase) (s : State) → Presets c case.now.masks case.now.presets → Acts c m.now.issued m.now.acts s → shown_value result ≡ value_of s (name_of c name) }
{
    let n = name as usize;
    if n < 32 {
        preset_of(case, n)
    } else {
        value_at(m, n - 32)
    }
}

// The value of an item.
pub fn item_value(case: &Case, m: &Machine, e: usize) -> Option<u16>
    requires { m.now.issued ≤ 48 }
    ensures { (c : TheCase) (s : State) → c.memory ≡ case.now.memory → Acts c m.now.issued m.now.acts s → shown_value result ≡ item_value c s e }
{
    if e < 8 {
        Some(case.memory[e])
    } else {
        value_at(m, e - 8)
    }
}

// Whether an entry is in the queue of processor p.
pub fn queued(e: Entry, p: usize) -> bool
    ensures { (c : TheCase) → result ≡ waiting p (shown_entry c e) }
{
    e.proc as usize == p && !e.done
}

// Whether every queue is empty and every place counter at its processor's count.
pub fn finished(case: &Case, m: &Machine) -> bool
    requires { case.now.procs ≤ 4 }
    ensures { (c : TheCase) (s : State) → Ending c s case.now.counts m.now.places case.now.procs → Kept c s m.now.sets → result ≡ is_finished c s }
{
    let mut all = true;
    for p in 0..case.procs as usize {
        all &= m.places[p] == case.counts[p] && m.sets[16 + p] == 0;
    }
    all
}

// What register n, counted over all processors, holds.
fn register(case: &Case, m: &Machine, n: usize) -> Option<u16>
    requires { (m.now.issued ≤ 48) × (n < 32) }
    ensures { (c : TheCase) (s : State) → Presets c case.now.masks case.now.presets → Acts c m.now.issued m.now.acts s → s.names (n / 8) (n % 8) ≡ name_of c (get_or m.now.names n 0) → shown_value result ≡ value_of s (s.names (n / 8) (n % 8)) }
{
    named(case, m, m.names[n])
}

// Byte j of the three of a register.
pub fn byte_of(v: Option<u16>, j: usize) -> u8
    requires { j < 3 }
    ensures { result ≡ get_or (register_bytes (shown_value v)) j 0 }
{
    match v {
        None => 0,
        Some(v) => [1, (v / 256) as u8, (v % 256) as u8][j],
    }
}

// The 96 bytes of registers; those of an absent processor are zeros.
pub fn registers(case: &Case, m: &Machine) -> [u8; 96]
    requires { (m.now.issued ≤ 48) × (case.now.procs ≤ 4) }
    ensures { (c : TheCase) (s : State) → c.procs ≡ case.now.procs → Presets c case.now.masks case.now.presets → Acts c m.now.issued m.now.acts s → s.names ≡ names_of c m.now.names → result ≡ registers_of c s }
{
    let mut out = [0u8; 96];
    for n in 0..8 * case.procs as usize {
        let v = register(case, m, n);
        out[3 * n] = byte_of(v, 0);
        out[3 * n + 1] = byte_of(v, 1);
        out[3 * n + 2] = byte_of(v, 2);
    }
    out
}

// The name of each register at the start: its own number.
const FIRST: [u8; 32] = [
    0, 1, 2, 3, 4, 5, 6, 7, 8, 9, 10, 11, 12, 13, 14, 15, 16, 17, 18, 19, 20, 21, 22, 23, 24, 25,
    26, 27, 28, 29, 30, 31,
];

// The sets at the start: each location's initial write, and the eight items that have their value.
const READY: [u64; 21] = [
    1, 2, 4, 8, 16, 32, 64, 128, 0, 0, 0, 0, 0, 0, 0, 0, 0, 0, 0, 0, 255,
];

// The machine before the first step.
pub fn start(case: &Case) -> Machine
    requires { Fit case.now }
    ensures { (shown case.now result ≡ initial case.now) × Valid case.now result }
{
    Machine {
        issued: 0,
        places: [0; 4],
        names: FIRST,
        holders: [0; 8],
        acts: [0; 48],
        rows: [0; 56],
        sets: READY,
    }
}
