// Commit: the code that it gets, and the machine after it.
#![tactic(auto)]

ghost use Rattle.std.specs.Prelude.{◌≡◌, true, ◌&&◌, not, List, [], ◌∷◌, ℕ, ◌+◌, ◌≤◌, ◌<◌, length, get_or, set};
ghost use Rattle.words.specs.Small.{is, is_none, or_zero, any};
ghost use Rattle.words.specs.Refusals.{◌when◌, first_code_of};
ghost use Rattle.cases.specs.declared.Case.{Case as TheCase};
ghost use Rattle.rules.specs.Kinds.{kind, reading, releasing, syncs, reads, label_of};
ghost use Rattle.rules.specs.State.{State, kind_of, value_of, input_of};
ghost use Rattle.rules.specs.Commit.{visible, barred, commit_refusals, committed as committed_of};
ghost use Rattle.rules.specs.Step.{commit as commit_step};
ghost use Rattle.orders.specs.Rows.{SetOf};
ghost use Rattle.machine.specs.Shown.{holder_of, name_of, shown_entry, shown, Presets, Acts};
ghost use Rattle.machine.specs.Given.{Accepted, Showing};
ghost use Rattle.machine.specs.Lent.{machine_of};
ghost use Rattle.sights.specs.Sights.{Names, Sight};
ghost use Rattle.committing.specs.Committed.{releases, Acquired, KeptBy, rest_refusals, result_by, branch_to, place_by, locked_by};
ghost use Rattle.committing.specs.Given.{Asking, AskingOne, Arrays, Shows, Locking, Acquiring, Keeping, Committing};

use cases::{Case, Expr, Instr};
use machine::{Entry, Machine};

// The holder of a location that nobody holds.
const NOBODY: u8 = 0;

// How many registers an instruction reads.
pub fn arity(i: Instr) -> u8
    ensures { result ≡ length (reads i) }
{
    match i {
        Instr::Read(..) | Instr::Branch(..) | Instr::Acquire(_) | Instr::Release(_) => 1,
        Instr::Write(..)
        | Instr::Local(_, Expr::Sum(..) | Expr::Difference(..) | Expr::Equal(..)) => 2,
        _ => 0,
    }
}

// Whether a register that the entry reads is undefined.
pub fn unready(masks: &[u8; 4], sets: &[u64; 21], e: Entry) -> bool
    ensures { (c : TheCase) (s : State) → Names c s masks.now sets.now → result ≡ any (λ n. is_none (value_of s n)) (shown_entry c e).inputs }
{
    match arity(e.instr) {
        0 => false,
        1 => !sights::known(masks, sets, e.first),
        _ => !sights::known(masks, sets, e.first) || !sights::known(masks, sets, e.second),
    }
}

// The value of a register that an entry reads, by its name.
pub fn input(case: &Case, m: &Machine, name: u8) -> u16
    requires { m.now.issued ≤ 48 }
    ensures { (c : TheCase) (s : State) → Presets c case.now.masks case.now.presets → Acts c m.now.issued m.now.acts s → result ≡ or_zero (value_of s (name_of c name)) }
{
    machine::or_zero(machine::named(case, m, name))
}

// Who holds location x: nobody, or 1 + p for processor p.
pub fn holder_at(holders: &[u8; 8], x: usize) -> u8
    requires { length holders.now ≡ 8 }
    ensures { result ≡ get_or holders.now x 0 }
{
    if x < 8 { holders[x] } else { NOBODY }
}

// Whether the holder h of its location bars a commit of a kind by processor p. A kind is the number that `kind` of the rules gives: `barred`, `locked_by` and
// `HoldRow` speak of it.
pub fn barred_by(h: u8, kind: u8, p: usize) -> bool
    requires { p < 4 }
    ensures { result ≡ barred p kind (holder_of h) }
{
    let mine = h as usize == p + 1;
    match kind {
        6 => h != NOBODY && !mine,
        7 => !mine,
        _ => false,
    }
}

// Code 32, of an entry of a kind and a location with item i.
fn sight_code(m: &Machine, kind: u8, loc: u8, i: usize, src: usize) -> u8
    requires { loc < 8 }
    ensures { (c : TheCase) (s : State) → (reading kind ≡ true → Sight c s m.now.sets m.now.rows loc i) → result ≡ first_code_of (32 when (reading kind && not (visible c s loc i src)) ∷ []) }
{
    if kind == 1 {
        if !words::has(sights::visible_items(m, loc as usize, i), src) {
            return 32;
        }
    }
    0
}

// Codes 27 to 32, of entry k, which is e; x is the value of its first register where it is an acquire or a release.
pub fn rest_code(case: &Case, m: &Machine, e: Entry, x: usize, p: usize, k: usize, src: usize) -> u8
    requires { AskingOne m.now.holders e p k }
    ensures { (c : TheCase) (s : State) → Shows c s case.now.masks m.now.rows m.now.sets m.now.holders case.now.locs e k → (syncs (kind e.instr) ≡ true → x ≡ input_of s (shown_entry c e) 0) → result ≡ first_code_of (rest_refusals c s p k src (shown_entry c e)) }
{
    // With `&&` and `||` here and below each later code's proof needs what is known of every way in: tried, and left open.
    let kind = rules::kind_of(e.instr);
    if (src != 0) & (kind != 1) {
        return 27;
    }
    if sights::held(&m.sets, p, k, kind, e.loc) {
        return 28;
    }
    if unready(&case.masks, &m.sets, e) {
        return 29;
    }
    if ((kind == 6) | (kind == 7)) & (case.locs as usize <= x) {
        return 30;
    }
    if barred_by(holder_at(&m.holders, x), kind, p) {
        return 31;
    }
    sight_code(m, kind, e.loc, 8 + k, src)
}

// The code that the commit of action k of processor p gets; a read names the source item.
pub fn commit_code(case: &Case, m: &Machine, p: usize, k: usize, src: usize) -> u8
    requires { Asking m.now.issued m.now.holders p }
    ensures { (c : TheCase) (s : State) → Presets c case.now.masks case.now.presets → Acts c m.now.issued m.now.acts s → Arrays c s m.now.issued m.now.acts m.now.rows m.now.sets m.now.holders case.now.locs → result ≡ first_code_of (commit_refusals c s p k src) }
{
    if m.issued <= k {
        return 26;
    }
    let e = machine::entry_at(&m.acts, k);
    if !machine::queued(e, p) {
        return 26;
    }
    let x = match e.instr {
        Instr::Acquire(_) | Instr::Release(_) => input(case, m, e.first) as usize,
        _ => 0,
    };
    rest_code(case, m, e, x, p, k, src)
}

// What a commit gives: v is the value of the source, x and y are the inputs.
pub fn result_by(v: u16, x: u16, y: u16, i: Instr) -> u16
    ensures { result ≡ result_by v x y i }
{
    match i {
        Instr::Read(..) => v,
        Instr::Write(..) => y,
        Instr::Local(_, e) => rules::evaluated(e, x, y),
        Instr::Acquire(_) | Instr::Release(_) => x,
        _ => 0,
    }
}

// The label of a branch or a goto, or 0.
pub fn label_of(i: Instr) -> u16
    ensures { result ≡ label_of i }
{
    match i {
        Instr::Branch(_, l) | Instr::Goto(l) => l,
        _ => 0,
    }
}

// Where a branch at a place goes, whose register holds x.
pub fn branch_to(x: u16, place: u8, label: u16) -> u8
    requires { place < 12 }
    ensures { result ≡ branch_to x place label }
{
    if x == 0 {
        place + 1
    } else {
        (label % 256) as u8
    }
}

// The place counter after a commit of a kind, where it was old.
fn place_by(kind: u8, old: u8, x: u16, place: u8, i: Instr) -> u8
    requires { place < 12 }
    ensures { result ≡ place_by kind old x place i }
{
    if kind == 4 {
        branch_to(x, place, label_of(i))
    } else {
        old
    }
}

// The holders with v at location x.
fn put_holder(mut h: [u8; 8], x: usize, v: u8) -> [u8; 8]
    requires { length h ≡ 8 }
    ensures { result ≡ set h x v }
{
    if x < 8 {
        h[x] = v;
    }
    h
}

// The holders after a commit of a kind by processor p, at location x.
pub fn locked_by(kind: u8, h: [u8; 8], x: usize, p: usize) -> [u8; 8]
    requires { Locking h p }
    ensures { result ≡ locked_by kind h x p }
{
    match kind {
        6 => put_holder(h, x, (p + 1) as u8),
        7 => put_holder(h, x, NOBODY),
        _ => h,
    }
}

// A commit of a kind by processor p changes who holds location x.
fn lock(holders: &mut [u8; 8], kind: u8, x: usize, p: usize)
    requires { Locking holders.old p }
    ensures { holders.new ≡ locked_by kind holders.old x p }
{
    *holders = locked_by(kind, *holders, x, p);
}

// Whether an entry is a committed release of location x.
fn frees(e: Entry, x: usize) -> bool
    ensures { (c : TheCase) → result ≡ (releasing (kind_of (shown_entry c e)) && is x (shown_entry c e).result) }
{
    match e.instr {
        Instr::Release(_) => e.done && e.result as usize == x,
        _ => false,
    }
}

// The items of the committed releases of location x.
fn released(acts: &[u64; 48], issued: usize, x: usize) -> u64
    requires { issued ≤ 48 }
    ensures { (c : TheCase) (s : State) → Acts c issued acts.now s → SetOf (8 + issued) (releases s x) result }
{
    let mut items: u64 = 0;
    for k in 0..issued {
        items = orders::with(items, 8 + k, frees(machine::entry_at(acts, k), x));
    }
    items
}

// Puts an acquire's item after the committed releases of its location x.
fn order_acquire(
    rows: &mut [u64; 56],
    acts: &[u64; 48],
    issued: usize,
    kind: u8,
    x: usize,
    item: usize,
)
    requires { Acquiring issued item rows.old }
    ensures { Acquired issued acts.now kind x item rows.old rows.new }
{
    if kind == 6 {
        let items = released(acts, issued, x);
        orders::join(rows, item, items, 8 + issued);
    }
}

// The item of action k leaves the queue of processor p, and has its value.
fn settle_sets(sets: &mut [u64; 21], p: usize, k: usize)
    requires { Keeping sets.old p k }
    ensures { KeptBy p k sets.old sets.new }
{
    let bit = words::one(8 + k);
    sets[16 + p] = orders::minus(sets[16 + p], bit);
    sets[20] |= bit;
}

// Takes the commit of action k of processor p, which nothing refuses; a read names the source item.
pub fn commit(case: &Case, m: &mut Machine, p: usize, k: usize, src: usize)
    requires { Committing m.old.places m.old.holders m.old.acts m.old.rows m.old.sets m.old.issued p k src }
    ensures kept { (m.new.names ≡ m.old.names) × (m.new.issued ≡ m.old.issued) }
    ensures showing { (c : TheCase) → Presets c case.now.masks case.now.presets → c.memory ≡ case.now.memory → Accepted c m.old (commit_step p k src) → Showing c (committed_of c (shown c m.old) p k src) m.new }
    ensures whatever_named { (c : TheCase) (names : List ℕ) → Presets c case.now.masks case.now.presets → c.memory ≡ case.now.memory → Accepted c (machine_of m.old.issued m.old.places names m.old.holders m.old.acts m.old.rows m.old.sets) (commit_step p k src) → Showing c (committed_of c (shown c (machine_of m.old.issued m.old.places names m.old.holders m.old.acts m.old.rows m.old.sets)) p k src) (machine_of m.old.issued m.new.places names m.new.holders m.new.acts m.new.rows m.new.sets) }
{
    let e = machine::entry_at(&m.acts, k);
    let kind = rules::kind_of(e.instr);
    let v = machine::or_zero(machine::item_value(case, m, src));
    let x = input(case, m, e.first);
    let y = input(case, m, e.second);
    let result = result_by(v, x, y, e.instr);
    order_acquire(&mut m.rows, &m.acts, m.issued, kind, x as usize, 8 + k);
    settle_sets(&mut m.sets, p, k);
    lock(&mut m.holders, kind, x as usize, p);
    m.places[p] = place_by(kind, m.places[p], x, e.place, e.instr);
    m.acts[k] = machine::packed(Entry {
        done: true,
        result,
        ..e
    });
}
