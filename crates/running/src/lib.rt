// A store-buffer machine in arrays: registers, memory, locks, and one log of stores that holds all buffers of all kinds.
#![tactic(auto)]

ghost use Rattle.std.specs.Prelude.{◌≡◌, ◌&&◌, cond, ◌/◌, ◌≤◌, ◌<◌, ltb, length, get_or, take, is_some, unwrap_or};
ghost use Rattle.std.proofs.Math.Option.{none};
ghost use Rattle.cases.specs.declared.Case.{Case as TheCase};
ghost use Rattle.words.specs.Small.{some_below};
ghost use Rattle.rules.specs.Kinds.{syncs};
ghost use Rattle.machine.specs.Shown.{option_of, shown_value};
ghost use Rattle.machine.specs.Fit.{Fit};
ghost use Rattle.issuing.specs.Issued.{assigned_by};
ghost use Rattle.boards.specs.declared.Buffering.{Buffering as Kind};
ghost use Rattle.boards.specs.Board.{filled, seen as seen_of};
ghost use Rattle.boards.specs.Machine.{run as run_move, allowed, ended as is_ended, registers as registers_of};
ghost use Rattle.boards.specs.Quiet.{quiet as is_quiet};
ghost use Rattle.boards.specs.Apart.{oldest_at};
ghost use Rattle.stores.specs.Log.{buffer_of};
ghost use Rattle.running.specs.Shown.{unknown, shown};
ghost use Rattle.running.specs.Steps.{operand_by, first_by, second_by, unready_by, bars_by, assign_by, follow_by, stored_by, written_by};
ghost use Rattle.running.specs.Glanced.{Glanced};
ghost use Rattle.running.specs.Valid.{Valid};
ghost use Rattle.running.specs.Given.{Seeing, Storing, Looking, Glancing, Running, Ran, Draining, Drained, Preset, Started};

use boards::Buffering;
use cases::{Case, Instr};
use stores::Logged;

// Register k of processor p stands at 8p + k; the stores of the log stand in the order in which they were run.
#[derive(Clone, Copy)]
pub struct Arrays {
    pub places: [u8; 4],
    pub values: [Option<u16>; 32],
    pub holders: [u8; 8],
    pub memory: [u16; 8],
    // Beside the log, not in it: the clauses of `Valid c s` name both, and memory is fixed.
    pub logged: usize,
    pub log: [Logged; 48],
}

impl Arrays {
    // The stores of the log so far.
    pub fn stores(&self) -> &[Logged]
        requires { self.now.logged ≤ 48 }
        ensures { result.now ≡ take self.now.logged self.now.log }
    {
        &self.log[..self.logged]
    }
}

// What processor p reads at location l.
fn seen(k: Buffering, s: &Arrays, p: usize, l: usize) -> u16
    requires { Seeing s.now l }
    ensures { (c : TheCase) → result ≡ seen_of k (shown k c s.now) p l }
{
    if let Some(b) = stores::buffer_of(k, l) {
        if let Some(v) = stores::newest(k, s.stores(), p, b, l) {
            return v;
        }
    }
    s.memory[l]
}

// What a register of processor p holds.
fn operand(values: &[Option<u16>; 32], p: usize, register: Option<u8>) -> Option<u16>
    requires { p < 4 }
    ensures { shown_value result ≡ operand_by values.now p (is_some register) (unwrap_or register 0) }
{
    match register {
        Some(r) if r < 8 => values[8 * p + r as usize],
        _ => None,
    }
}

// What the first register that an instruction reads holds.
fn first(values: &[Option<u16>; 32], p: usize, i: Instr) -> Option<u16>
    requires { p < 4 }
    ensures { shown_value result ≡ first_by values.now p i }
{
    operand(
        values,
        p,
        (0 < committing::arity(i)).then_some(issuing::first_read(i)),
    )
}

// What the second holds.
fn second(values: &[Option<u16>; 32], p: usize, i: Instr) -> Option<u16>
    requires { p < 4 }
    ensures { shown_value result ≡ second_by values.now p i }
{
    operand(
        values,
        p,
        (1 < committing::arity(i)).then_some(issuing::second_read(i)),
    )
}

// Whether a register that an instruction reads is undefined.
fn unready(values: &[Option<u16>; 32], p: usize, i: Instr) -> bool
    requires { p < 4 }
    ensures { result ≡ unready_by values.now p i }
{
    let n = committing::arity(i);
    ((0 < n) & first(values, p, i).is_none()) | ((1 < n) & second(values, p, i).is_none())
}

// Whether an acquire or a release has to wait for the buffers of processor p.
fn stuck(k: Buffering, s: &Arrays, locs: u8, q: u8, p: usize) -> bool
    requires { (p < 4) × (locs ≤ 8) × (s.now.logged ≤ 48) × (length s.now.log ≡ 48) }
    ensures { result ≡ (syncs q && some_below locs (λ b. filled (buffer_of k s.now.log s.now.logged p b))) }
{
    if (q == 6) | (q == 7) {
        stores::holding(k, s.stores(), locs, p)
    } else {
        false
    }
}

// Whether instruction i of processor p, inside its program, is barred.
fn bars(k: Buffering, s: &Arrays, locs: u8, p: usize, i: Instr) -> bool
    requires { (p < 4) × (locs ≤ 8) × (s.now.logged ≤ 48) × (length s.now.log ≡ 48) }
    ensures { result ≡ bars_by k s.now locs p i }
{
    let q = rules::kind_of(i);
    let x = machine::or_zero(first(&s.values, p, i)) as usize;
    let far = (((q == 1) | (q == 2)) | ((q == 6) | (q == 7))) & (locs as usize <= x);
    let held = committing::barred_by(committing::holder_at(&s.holders, x), q, p);
    unready(&s.values, p, i) | (far | (held | stuck(k, s, locs, q, p)))
}

// Whether processor p may run its next instruction.
pub fn can_run(case: &Case, k: Buffering, s: &Arrays, p: usize) -> bool
    requires { Looking case.now s.now p }
    ensures { result ≡ allowed k case.now (shown k case.now s.now) (run_move p) }
{
    let place = s.places[p];
    p < case.procs as usize
        && place < case.counts[p]
        && !bars(k, s, case.locs, p, case.code[12 * p + place as usize].instr)
}

// What a search looks at before it runs an instruction: the instruction, what its first register holds, whether it is quiet.
#[derive(Clone, Copy)]
pub struct Next {
    pub instr: Instr,
    pub at: u16,
    pub quiet: bool,
}

// The next instruction of processor p, which nothing bars.
pub fn glance(case: &Case, k: Buffering, s: &Arrays, p: usize) -> Next
    requires { Glancing k case.now s.now p }
    ensures { Glanced k case.now (shown k case.now s.now) p result }
{
    let instr = case.code[12 * p + s.places[p] as usize].instr;
    let at = machine::or_zero(first(&s.values, p, instr));
    let quiet = match instr {
        Instr::Read(_, _) | Instr::Acquire(_) | Instr::Release(_) => false,
        Instr::Write(_, _) => stores::buffer_of(k, at as usize).is_some(),
        _ => true,
    };
    Next { instr, at, quiet }
}

// Whether the next instruction of processor p is a quiet one that it may run.
pub fn sure(case: &Case, k: Buffering, s: &Arrays, p: usize) -> bool
    requires { Looking case.now s.now p }
    ensures { result ≡ (is_quiet k case.now (shown k case.now s.now) p && allowed k case.now (shown k case.now s.now) (run_move p)) }
{
    can_run(case, k, s, p) && glance(case, k, s, p).quiet
}

// The location of the oldest store of buffer b of processor p.
pub fn drain_at(k: Buffering, s: &Arrays, p: usize, b: usize) -> Option<u16>
    requires { (s.now.logged ≤ 48) × (length s.now.log ≡ 48) }
    ensures { option_of (is_some result) (unwrap_or result 0) ≡ oldest_at (buffer_of k s.now.log s.now.logged p b) }
{
    let j = stores::oldest(k, s.stores(), p, b)?;
    Some(s.log[j].loc as u16)
}

// Puts v into the register that instruction i of processor p assigns.
fn assign(values: &mut [Option<u16>; 32], p: usize, i: Instr, v: u16)
    requires { p < 4 }
    ensures { values.new ≡ assign_by values.old p (assigned_by i) v }
{
    let d = issuing::assigned(i) as usize;
    if d < 8 {
        values[8 * p + d] = Some(v);
    }
}

// The place after instruction i, whose first register holds x.
fn follow(i: Instr, place: u8, x: u16) -> u8
    requires { place < 12 }
    ensures { result ≡ follow_by i place x }
{
    match i {
        Instr::Branch(_, l) => committing::branch_to(x, place, l),
        Instr::Goto(l) => (l % 256) as u8,
        _ => place + 1,
    }
}

// What a read by processor p takes at location x; of another kind nothing.
fn value_read(k: Buffering, s: &Arrays, q: u8, p: usize, x: u16) -> u16
    requires { (s.now.logged ≤ 48) × (length s.now.log ≡ 48) }
    ensures { (c : TheCase) → q ≡ 1 → x < 8 → result ≡ seen_of k (shown k c s.now) p x }
{
    if q == 1 && x < 8 {
        seen(k, s, p, x as usize)
    } else {
        0
    }
}

// Stores v at location l for processor p: in memory, or in the log.
fn store(k: Buffering, s: &mut Arrays, p: usize, l: usize, v: u16)
    requires { Storing s.old p l }
    ensures { s.new ≡ stored_by k s.old p l v }
{
    if stores::buffer_of(k, l).is_none() {
        s.memory[l] = v;
    } else {
        s.log[s.logged] = Logged {
            proc: p as u8,
            loc: l as u8,
            value: v,
            waits: true,
        };
        s.logged += 1;
    }
}

// The same where the kind is a write's.
fn write(k: Buffering, s: &mut Arrays, q: u8, p: usize, x: u16, y: u16)
    requires { (p < 4) × (s.old.logged < 48) × (length s.old.log ≡ 48) }
    ensures { s.new ≡ written_by k s.old q p x y }
{
    if q == 2 && x < 8 {
        store(k, s, p, x as usize, y);
    }
}

// The machine after the next instruction of processor p, which nothing bars.
#[tactic(auto, using(crate::proofs::Running::proc_low, crate::proofs::Running::place_small))]
pub fn run(case: &Case, k: Buffering, s: &Arrays, p: usize) -> Arrays
    requires { Running k case.now s.now p }
    ensures { Ran k case.now s.now p result }
{
    let place = s.places[p];
    let i = case.code[12 * p + place as usize].instr;
    let q = rules::kind_of(i);
    let x = machine::or_zero(first(&s.values, p, i));
    let y = machine::or_zero(second(&s.values, p, i));
    let result = committing::result_by(value_read(k, s, q, p, x), x, y, i);
    let mut next = *s;
    write(k, &mut next, q, p, x, y);
    next.places[p] = follow(i, place, x);
    assign(&mut next.values, p, i, result);
    next.holders = committing::locked_by(q, s.holders, x as usize, p);
    next
}

// The machine after the oldest store of buffer b of processor p has reached memory.
pub fn drain(case: &Case, k: Buffering, s: &Arrays, p: usize, b: usize) -> Arrays
    requires { Draining k case.now s.now p b }
    ensures { Drained k case.now s.now p b result }
{
    let mut next = *s;
    if let Some(j) = stores::oldest(k, s.stores(), p, b) {
        let x = s.log[j];
        next.memory[x.loc as usize] = x.value;
        next.log[j].waits = false;
    }
    next
}

// What each register starts with.
fn presets(case: &Case) -> [Option<u16>; 32]
    requires { Fit case.now }
    ensures { Preset case.now result }
{
    std::array::from_fn(|n| machine::preset_of(case, n))
}

// The machine before the first step.
pub fn start(case: &Case) -> Arrays
    requires { Fit case.now }
    ensures { (k : Kind) → Started k case.now result }
{
    let none = Logged {
        proc: 0,
        loc: 0,
        value: 0,
        waits: false,
    };
    Arrays {
        places: [0; 4],
        values: presets(case),
        holders: [0; 8],
        memory: case.memory,
        logged: 0,
        log: [none; 48],
    }
}

// Whether every place counter is at its processor's count.
pub fn ended(case: &Case, s: &Arrays) -> bool
    requires { Valid case.now s.now }
    ensures { (k : Kind) → result ≡ is_ended case.now (shown k case.now s.now) }
{
    (0..case.procs as usize).all(|p| s.places[p] == case.counts[p])
}

// What register n, counted over all processors, holds; that of an absent processor nothing.
fn register(case: &Case, values: &[Option<u16>; 32], n: usize) -> Option<u16>
    requires { n < 32 }
    ensures { shown_value result ≡ cond (ltb (n / 8) case.now.procs) (shown_value (get_or values.now n unknown)) none }
{
    if n / 8 < case.procs as usize {
        values[n]
    } else {
        None
    }
}

// The 96 bytes of registers.
pub fn registers(case: &Case, s: &Arrays) -> [u8; 96]
    requires { Valid case.now s.now }
    ensures { (k : Kind) → result ≡ registers_of case.now (shown k case.now s.now) }
{
    std::array::from_fn(|i| machine::byte_of(register(case, &s.values, i / 3), i % 3))
}
