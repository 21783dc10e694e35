// Questions that the kept sets answer: what holds a commit back, what a read sees, what is not committed, which names are defined.
#![tactic(auto)]

ghost use Rattle.std.specs.Prelude.{◌≡◌, ◌&&◌, ◌||◌, not, ℕ, ◌+◌, ◌≤◌, ◌<◌, eqb, ltb};
ghost use Rattle.words.specs.Small.{is_none, some_below};
ghost use Rattle.words.specs.Sets.{has as in_set};
ghost use Rattle.cases.specs.declared.Case.{Case as TheCase};
ghost use Rattle.rules.specs.Kinds.{held_by};
ghost use Rattle.rules.specs.State.{State, kind_of, value_of};
ghost use Rattle.rules.specs.Commit.{visible};
ghost use Rattle.orders.specs.Rows.{order_of};
ghost use Rattle.machine.specs.Shown.{name_of};
ghost use Rattle.machine.specs.Kept.{Kept};
ghost use Rattle.sights.specs.Sights.{holding, Held, KindAt, HoldRow, Names, Sight};

use machine::Machine;

// The numbers below n of a set.
pub fn below(x: u64, n: usize) -> u64
    requires { n < 64 }
    ensures { (a : ℕ) → in_set result a ≡ (in_set x a && ltb a n) }
{
    x & (words::one(n) - 1)
}

// By committing kind, a row each, and queued kind: bit q is set where one of kind q holds it back, bit 8 + q where it does so at the same location.
const HOLD: [u64; 8] = [
    0b0000_0000_0000_0000, // nothing
    0b0000_0100_0100_0000, // read
    0b0000_0000_0100_0000, // write
    0b0000_0000_0100_0000, // local
    0b0000_0000_0100_0000, // branch
    0b0000_0000_0100_0000, // goto
    0b0000_0000_1100_0000, // acquire
    0b0000_0000_1111_1111, // release
];

// The row of a committing kind.
fn hold_row(kind: u8) -> u64
    requires { kind < 8 }
    ensures { HoldRow kind result }
{
    HOLD[kind as usize]
}

// The items of kind q.
fn of_kind(sets: &[u64; 21], q: usize) -> u64
    requires { q < 8 }
    ensures { (c : TheCase) (s : State) → Kept c s sets.now → (j : ℕ) → j < s.count → in_set result (8 + j) ≡ eqb (kind_of (s.actions j)) q }
{
    sets[8 + q]
}

// The items of the kinds of a set.
fn of_kinds(sets: &[u64; 21], kinds: u64) -> u64
    requires { kinds < 256 }
    ensures { (c : TheCase) (s : State) → Kept c s sets.now → (j : ℕ) → j < s.count → in_set result (8 + j) ≡ in_set kinds (kind_of (s.actions j)) }
{
    let mut items: u64 = 0;
    let mut rest = kinds;
    while 0 < rest {
        items |= of_kind(sets, orders::lowest(rest));
        rest = orders::others(rest);
    }
    items
}

// The items of the actions that hold back the commit of a kind at a location, where they are queued.
fn holding_items(sets: &[u64; 21], kind: u8, loc: u8) -> u64
    requires { KindAt kind loc }
    ensures { (c : TheCase) (s : State) → Kept c s sets.now → (j : ℕ) → j < s.count → in_set result (8 + j) ≡ held_by kind (kind_of (s.actions j)) (eqb (s.actions j).loc loc) }
{
    let row = hold_row(kind);
    let all = of_kinds(sets, row % 256);
    let same = of_kinds(sets, row / 256);
    all | (same & sets[loc as usize])
}

// Whether an action of processor p before k holds back the commit of a kind at a location.
pub fn held(sets: &[u64; 21], p: usize, k: usize, kind: u8, loc: u8) -> bool
    requires { Held p k kind loc }
    ensures { (c : TheCase) (s : State) → Kept c s sets.now → k ≤ s.count → result ≡ some_below k (λ j. holding p kind loc (s.actions j)) }
{
    let queue = below(sets[16 + p], 8 + k);
    let items = holding_items(sets, kind, loc);
    (queue & items) != 0
}

// Whether action k is issued and not committed.
pub fn waits(m: &Machine, k: usize) -> bool
    requires { k < 56 }
    ensures { (c : TheCase) (s : State) → Kept c s m.now.sets → s.count ≡ m.now.issued → result ≡ (ltb k s.count && is_none (s.actions k).result) }
{
    k < m.issued && !words::has(m.sets[20], 8 + k)
}

// Whether the register that a name stands for is defined.
pub fn known(masks: &[u8; 4], sets: &[u64; 21], name: u8) -> bool
    ensures { (c : TheCase) (s : State) → Names c s masks.now sets.now → result ≡ not (is_none (value_of s (name_of c name))) }
{
    let n = name as usize;
    if n < 32 {
        words::has(masks[n / 8] as u64, n % 8)
    } else {
        words::has(sets[20], n - 24)
    }
}

// What stands before item w.
fn row_at(rows: &[u64; 56], w: usize) -> u64
    ensures { (a : ℕ) → in_set result a ≡ order_of rows.now a w }
{
    if w < 56 { rows[w] } else { 0 }
}

// What stands before an item of a set.
fn covered(rows: &[u64; 56], items: u64) -> u64
    ensures { (a : ℕ) → in_set result a ≡ some_below 64 (λ w. in_set items w && order_of rows.now a w) }
{
    let mut mask: u64 = 0;
    let mut rest = items;
    while 0 < rest {
        mask |= row_at(rows, orders::lowest(rest));
        rest = orders::others(rest);
    }
    mask
}

// The set with e, unless the test passes.
fn with_unless(x: u64, e: usize, test: bool) -> u64
    requires { e < 64 }
    ensures { (a : ℕ) → in_set result a ≡ ((eqb a e && not test) || in_set x a) }
{
    if test { x } else { words::one(e) | x }
}

// The items of a set that do not stand after item i.
fn not_after(rows: &[u64; 56], items: u64, i: usize) -> u64
    ensures { (e : ℕ) → in_set result e ≡ (in_set items e && not (order_of rows.now i e)) }
{
    let mut seen: u64 = 0;
    let mut rest = items;
    while 0 < rest {
        let e = orders::lowest(rest);
        seen = with_unless(seen, e, orders::before(rows, i, e));
        rest = orders::others(rest);
    }
    seen
}

// The items that are visible to the read item i of location l.
pub fn visible_items(m: &Machine, l: usize, i: usize) -> u64
    requires { l < 8 }
    ensures { (c : TheCase) (s : State) → Sight c s m.now.sets m.now.rows l i → (e : ℕ) → in_set result e ≡ visible c s l i e }
{
    let items = m.sets[l];
    let near = row_at(&m.rows, i);
    let gone = covered(&m.rows, items & near);
    let left = orders::minus(items & m.sets[20], gone);
    not_after(&m.rows, left, i)
}
