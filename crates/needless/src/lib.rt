// Steps that need not be tried: a read's source whose value a spent one has, and reads that nothing looks at.
#![tactic(auto)]

ghost use Rattle.std.specs.Prelude.{◌≡◌, true, ◌&&◌, ◌||◌, not, ℕ, ◌≤◌, ◌<◌, eqb, length};
ghost use Rattle.words.specs.Small.{or_zero, some_below};
ghost use Rattle.words.specs.Sets.{has as in_set};
ghost use Rattle.cases.specs.declared.Case.{Case as TheCase};
ghost use Rattle.rules.specs.Kinds.{kind, assigns};
ghost use Rattle.rules.specs.State.{State, item_value};
ghost use Rattle.sure.specs.Dead.{ignorable, is_given, holds_on, awaits as is_awaiting, Ignored};
ghost use Rattle.orders.specs.Rows.{SetOf};
ghost use Rattle.machine.specs.Shown.{name_of, names_of, shown_entry, Acts};
ghost use Rattle.needless.specs.Echoes.{gives_in, is_novel, Unechoed};
ghost use Rattle.needless.specs.Joins.{Joins};
ghost use Rattle.needless.specs.Given.{Asking, Joining};

use cases::{Case, Instr};
use machine::{Entry, Machine};

// Whether a read takes v from item f.
fn gives(case: &Case, m: &Machine, f: usize, v: u16) -> bool
    requires { m.now.issued ≤ 48 }
    ensures { (c : TheCase) (s : State) → c.memory ≡ case.now.memory → Acts c m.now.issued m.now.acts s → result ≡ eqb v (or_zero (item_value c s f)) }
{
    v == machine::or_zero(machine::item_value(case, m, f))
}

// Whether a read takes v from an item of both sets.
fn some_gives(case: &Case, m: &Machine, word: u64, done: u64, v: u16) -> bool
    requires { m.now.issued ≤ 48 }
    ensures { (c : TheCase) (s : State) → c.memory ≡ case.now.memory → Acts c m.now.issued m.now.acts s → result ≡ some_below 64 (gives_in c s word done v) }
{
    let mut found = false;
    let mut rest = word & done;
    while 0 < rest {
        found |= gives(case, m, orders::lowest(rest), v);
        rest = orders::others(rest);
    }
    found
}

// Whether no item of both sets gives a read what e, an item of the set `word`, gives it.
fn novel(case: &Case, m: &Machine, word: u64, done: u64, e: usize) -> bool
    requires { m.now.issued ≤ 48 }
    ensures { (c : TheCase) (s : State) → c.memory ≡ case.now.memory → Acts c m.now.issued m.now.acts s → in_set word e ≡ true → result ≡ is_novel c s word done e }
{
    let v = machine::or_zero(machine::item_value(case, m, e));
    !some_gives(case, m, word, done, v)
}

// The items of the set `word` whose value no item of both sets has: none of those is one of both.
fn novel_items(case: &Case, m: &Machine, word: u64, done: u64) -> u64
    requires { m.now.issued ≤ 48 }
    ensures { (c : TheCase) (s : State) → c.memory ≡ case.now.memory → Acts c m.now.issued m.now.acts s → SetOf 64 (is_novel c s word done) result }
{
    let mut items: u64 = 0;
    let mut rest = orders::minus(word, done);
    while 0 < rest {
        let e = orders::lowest(rest);
        if novel(case, m, word, done, e) {
            items |= words::one(e);
        }
        rest = orders::others(rest);
    }
    items
}

// The accepted steps `word` of word w without the reads from an item whose value a spent one has.
pub fn unechoed(case: &Case, m: &Machine, spent: &[u64; 50], word: u64, w: usize) -> u64
    requires { Asking m.now.issued w }
    ensures { (c : TheCase) (s : State) → c.memory ≡ case.now.memory → Acts c m.now.issued m.now.acts s → Unechoed c s spent.now w word result }
{
    if 48 <= w {
        return word;
    }
    let done = spent[w];
    let tried = word & done;
    if tried == 0 || tried == word {
        word
    } else {
        novel_items(case, m, word, done)
    }
}

// Whether a name stands for what action k gives.
fn is_given(name: u8, k: usize) -> bool
    requires { k < 48 }
    ensures { (c : TheCase) → result ≡ is_given k (name_of c name) }
{
    name as usize == 32 + k
}

// Whether the register that the entry, action k, assigns is bound to what it gives.
fn holds_on(names: &[u8; 32], e: Entry, k: usize) -> bool
    requires { (length names.now ≡ 32) × (k < 48) }
    ensures { (c : TheCase) (s : State) → s.names ≡ names_of c names.now → s.actions k ≡ shown_entry c e → result ≡ holds_on s k (assigns e.instr) }
{
    let d = issuing::assigned(e.instr) as usize;
    let p = e.proc as usize;
    if p < 4 && d < 8 {
        is_given(names[8 * p + d], k)
    } else {
        false
    }
}

// Whether the entry is queued and reads what action k gives.
fn awaits(e: Entry, k: usize) -> bool
    requires { k < 48 }
    ensures { (c : TheCase) → result ≡ is_awaiting k (shown_entry c e) }
{
    let n = committing::arity(e.instr);
    !e.done & (((0 < n) & is_given(e.first, k)) | ((1 < n) & is_given(e.second, k)))
}

// Whether a queued action outside the set reads what action k gives.
fn awaited(m: &Machine, inner: u64, k: usize) -> bool
    requires { (m.now.issued ≤ 48) × (k < 48) }
    ensures { (c : TheCase) (s : State) → Acts c m.now.issued m.now.acts s → result ≡ some_below s.count (λ j. is_awaiting k (s.actions j) && not (in_set inner j)) }
{
    for j in 0..m.issued {
        if awaits(machine::entry_at(&m.acts, j), k) & !words::has(inner, j) {
            return true;
        }
    }
    false
}

// Whether the instruction is a read or a local.
fn is_ignorable(i: Instr) -> bool
    ensures { result ≡ ignorable (kind i) }
{
    matches!(i, Instr::Read(_, _) | Instr::Local(_, _))
}

// Whether action k, queued, may join a set of reads and locals that nothing outside it reads.
fn may_join(m: &Machine, inner: u64, k: usize) -> bool
    requires { Joining m.now.issued m.now.names k }
    ensures { (c : TheCase) (s : State) → Acts c m.now.issued m.now.acts s → s.names ≡ names_of c m.now.names → result ≡ true → Joins s inner k }
{
    let e = machine::entry_at(&m.acts, k);
    !e.done && is_ignorable(e.instr) && !holds_on(&m.names, e, k) && !awaited(m, inner, k)
}

// Queued reads and locals that nothing outside them looks at.
pub fn ignored(m: &Machine) -> u64
    requires { (m.now.issued ≤ 48) × (length m.now.names ≡ 32) }
    ensures { (c : TheCase) (s : State) → Acts c m.now.issued m.now.acts s → s.names ≡ names_of c m.now.names → Ignored s (in_set result) }
{
    let mut inner: u64 = 0;
    for k in (0..m.issued).rev() {
        if may_join(m, inner, k) {
            inner |= words::one(k);
        }
    }
    inner
}
