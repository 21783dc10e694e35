// Issue: the code that it gets, and the machine after it.
#![tactic(auto)]

ghost use Rattle.std.specs.Prelude.{◌≡◌, ◌&&◌, cond, List, [], ◌∷◌, ℕ, ◌+◌, ◌%◌, ◌≤◌, ◌<◌, eqb, leb, length, get_or};
ghost use Rattle.words.specs.Small.{is_none, or_zero};
ghost use Rattle.words.specs.Refusals.{◌when◌, first_code_of};
ghost use Rattle.cases.specs.declared.Case.{Case as TheCase};
ghost use Rattle.rules.specs.Kinds.{kind, accesses, syncs, reads};
ghost use Rattle.rules.specs.State.{State, Action, value_of, stands_at};
ghost use Rattle.rules.specs.Issue.{issue_refusals, issued as issued_of};
ghost use Rattle.rules.specs.Step.{issue as issue_step};
ghost use Rattle.oneorder.specs.OneOrder.{has_item};
ghost use Rattle.orders.specs.Rows.{SetOf};
ghost use Rattle.machine.specs.Shown.{name_of, names_of, place_of, shown_value, shown_entry, shown, Presets, Acts};
ghost use Rattle.machine.specs.Given.{Accepted, Showing};
ghost use Rattle.machine.specs.Lent.{machine_of, Program, Lent};
ghost use Rattle.issuing.specs.Issued.{assigned_by, place_by, after, Bound, Ordered, KeptBy};
ghost use Rattle.issuing.specs.Given.{Joining, Keeping, Binding, Asking, Renaming, Renamed, Issuing};

use cases::{Case, Expr, Instr};
use machine::{Entry, Machine};

// A place counter that is undefined.
const UNDEFINED: u8 = 255;

// Whether an instruction is a read or a write.
fn accesses(i: Instr) -> bool
    ensures { result ≡ accesses (kind i) }
{
    matches!(i, Instr::Read(..) | Instr::Write(..))
}

// Whether an instruction is an acquire or a release.
fn syncs(i: Instr) -> bool
    ensures { result ≡ syncs (kind i) }
{
    matches!(i, Instr::Acquire(_) | Instr::Release(_))
}

// Whether the entry has an item in the order.
fn has_item(e: Entry) -> bool
    ensures { (c : TheCase) → result ≡ has_item (shown_entry c e) }
{
    syncs(e.instr) || accesses(e.instr)
}

// Whether that item is one of processor p.
fn own(e: Entry, p: usize) -> bool
    ensures { (c : TheCase) → result ≡ (eqb (shown_entry c e).proc p && has_item (shown_entry c e)) }
{
    e.proc as usize == p && has_item(e)
}

// The initial writes of the locations where the entry's item stands.
fn initial_writes(e: Entry) -> u64
    requires { e.loc < 8 }
    ensures { (c : TheCase) → SetOf 8 (λ l. stands_at l (shown_entry c e)) result }
{
    if syncs(e.instr) {
        255
    } else if accesses(e.instr) {
        words::one(e.loc as usize)
    } else {
        0
    }
}

// The items that a new one of processor p stands after: some initial writes, and all earlier items of p.
fn earlier(acts: &[u64; 48], issued: usize, p: usize, writes: u64) -> u64
    requires { issued ≤ 48 }
    ensures { (c : TheCase) (s : State) (new : Action) → Acts c issued acts.now s → SetOf 8 (λ l. stands_at l new) writes → SetOf (8 + issued) (after p new s) result }
{
    let mut items = writes;
    for k in 0..issued {
        items = orders::with(items, 8 + k, own(machine::entry_at(acts, k), p));
    }
    items
}

// The item of a new entry e of processor p joins the order.
fn join_order(rows: &mut [u64; 56], acts: &[u64; 48], issued: usize, p: usize, e: Entry)
    requires { Joining issued rows.old e }
    ensures { Ordered issued acts.now p e rows.old rows.new }
{
    if has_item(e) {
        let items = earlier(acts, issued, p, initial_writes(e));
        orders::join(rows, 8 + issued, items, 8 + issued);
    }
}

// The first register that an instruction reads, its address register, or 0.
pub fn first_read(i: Instr) -> u8
    ensures { result ≡ get_or (reads i) 0 0 }
{
    match i {
        Instr::Read(_, a)
        | Instr::Write(a, _)
        | Instr::Local(_, Expr::Sum(a, _) | Expr::Difference(a, _) | Expr::Equal(a, _))
        | Instr::Branch(a, _)
        | Instr::Acquire(a)
        | Instr::Release(a) => a,
        _ => 0,
    }
}

// The second register that an instruction reads, or 0.
pub fn second_read(i: Instr) -> u8
    ensures { result ≡ get_or (reads i) 1 0 }
{
    match i {
        Instr::Write(_, b)
        | Instr::Local(_, Expr::Sum(_, b) | Expr::Difference(_, b) | Expr::Equal(_, b)) => b,
        _ => 0,
    }
}

// The place counter after an issue.
fn place_after(i: Instr, place: u8) -> u8
    requires { place < 12 }
    ensures { result ≡ place_by i place }
{
    match i {
        Instr::Branch(..) => UNDEFINED,
        Instr::Goto(l) => (l % 256) as u8,
        _ => place + 1,
    }
}

// The register that an instruction assigns, or 8.
pub fn assigned(i: Instr) -> u8
    ensures { result ≡ assigned_by i }
{
    match i {
        Instr::Read(d, _) | Instr::Local(d, _) => d,
        _ => 8,
    }
}

// What register n, counted over all processors, is bound to.
fn name_at(names: &[u8; 32], n: usize) -> u8
    requires { length names.now ≡ 32 }
    ensures { result ≡ get_or names.now n 0 }
{
    if n < 32 { names[n] } else { 0 }
}

// The location of a read or a write, from the name of its address register.
fn location(case: &Case, m: &Machine, i: Instr, first: u8) -> u8
    requires { m.now.issued ≤ 48 }
    ensures { (result < 8) × ((c : TheCase) (s : State) → Presets c case.now.masks case.now.presets → Acts c m.now.issued m.now.acts s → result ≡ cond (accesses (kind i)) (or_zero (value_of s (name_of c first)) % 8) 0) }
{
    if accesses(i) {
        (machine::or_zero(machine::named(case, m, first)) % 8) as u8
    } else {
        0
    }
}

// A new entry of instruction i of processor p, its registers bound and its location fixed.
fn new_entry(case: &Case, m: &Machine, p: usize, place: u8, i: Instr) -> Entry
    requires { Binding m.now.issued m.now.names p i }
    ensures { Bound case.now.masks case.now.presets m.now.names m.now.acts m.now.issued p place i result }
{
    let first = name_at(&m.names, 8 * p + first_read(i) as usize);
    Entry {
        instr: i,
        proc: p as u8,
        place,
        first,
        second: name_at(&m.names, 8 * p + second_read(i) as usize),
        loc: location(case, m, i, first),
        done: false,
        result: 0,
    }
}

// Codes 24 and 25 of an instruction whose address register holds v.
fn address_code(i: Instr, v: Option<u16>, locs: u8) -> u8
    ensures { result ≡ first_code_of (24 when (accesses (kind i) && is_none (shown_value v)) ∷ 25 when (accesses (kind i) && leb locs (or_zero (shown_value v))) ∷ []) }
{
    match v {
        _ if !accesses(i) => 0,
        None => 24,
        Some(v) if locs as u16 <= v => 25,
        Some(_) => 0,
    }
}

// The code that an issue of processor p gets.
pub fn issue_code(case: &Case, program: &[u64; 48], m: &Machine, p: usize) -> u8
    requires { Asking m.now.issued case.now.counts m.now.names p }
    ensures { (c : TheCase) (s : State) → Lent c program.now case.now.counts case.now.masks case.now.presets case.now.procs case.now.locs → Acts c m.now.issued m.now.acts s → s.places p ≡ place_of (get_or m.now.places p 0) → s.names ≡ names_of c m.now.names → result ≡ first_code_of (issue_refusals c s p) }
{
    let place = m.places[p];
    if place == UNDEFINED {
        return 21;
    }
    if case.counts[p] <= place {
        return 22;
    }
    if 48 <= m.issued {
        return 23;
    }
    let i = machine::instr_at(program, 12 * p + place as usize);
    let name = name_at(&m.names, 8 * p + first_read(i) as usize);
    address_code(i, machine::named(case, m, name), case.locs)
}

// The register that instruction i assigns is renamed: it stands for what action k of processor p gives.
fn rename(names: &mut [u8; 32], p: usize, i: Instr, k: usize)
    requires { Renaming names.old p k i }
    ensures { Renamed names.old p k i names.new }
{
    let d = assigned(i) as usize;
    if d < 8 {
        names[8 * p + d] = (32 + k) as u8;
    }
}

// The item of entry e, the new action k, joins the sets that it is of.
fn join_sets(sets: &mut [u64; 21], k: usize, e: Entry)
    requires { Keeping sets.old k e }
    ensures { KeptBy k e sets.old sets.new }
{
    let item = 8 + k;
    let kind = rules::kind_of(e.instr) as usize;
    let proc = e.proc as usize;
    let loc = e.loc as usize;
    let writes = orders::with(sets[loc], item, kind == 2);
    let kinds = orders::with(sets[8 + kind], item, true);
    let queue = orders::with(sets[16 + proc], item, !e.done);
    let given = orders::with(sets[20], item, e.done);
    sets[loc] = writes;
    sets[8 + kind] = kinds;
    sets[16 + proc] = queue;
    sets[20] = given;
}

// Takes an issue of processor p that nothing refuses: the action is entered as number `issued`. The registers are bound to the names before the one assigned is renamed.
pub fn issue(case: &Case, program: &[u64; 48], m: &mut Machine, p: usize)
    requires { Issuing program.now m.old.places m.old.names m.old.acts m.old.rows m.old.sets m.old.issued p }
    ensures kept { (m.new.holders ≡ m.old.holders) × (m.new.issued ≡ m.old.issued + 1) }
    ensures showing { (c : TheCase) → Program c program.now → Presets c case.now.masks case.now.presets → Accepted c m.old (issue_step p) → Showing c (issued_of c (shown c m.old) p) m.new }
    ensures whoever_holds { (c : TheCase) (holders : List ℕ) → Program c program.now → Presets c case.now.masks case.now.presets → Accepted c (machine_of m.old.issued m.old.places m.old.names holders m.old.acts m.old.rows m.old.sets) (issue_step p) → Showing c (issued_of c (shown c (machine_of m.old.issued m.old.places m.old.names holders m.old.acts m.old.rows m.old.sets)) p) (machine_of (m.old.issued + 1) m.new.places m.new.names holders m.new.acts m.new.rows m.new.sets) }
{
    let place = m.places[p];
    let i = machine::instr_at(program, 12 * p + place as usize);
    let k = m.issued;
    let e = new_entry(case, m, p, place, i);
    rename(&mut m.names, p, i, k);
    join_order(&mut m.rows, &m.acts, k, p, e);
    join_sets(&mut m.sets, k, e);
    m.acts[k] = machine::packed(e);
    m.places[p] = place_after(i, place);
    m.issued = k + 1;
}
