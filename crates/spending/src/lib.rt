// The steps that are spent, as fifty words: asked for, one more noted, and what stays spent when a step is taken.
#![tactic(auto)]

ghost use Rattle.std.specs.Prelude.{◌≡◌, ◌&&◌, ◌||◌, not, cond, ℕ, suc, ◌/◌, ◌%◌, ◌≤◌, ◌<◌, eqb, ltb, leb, length};
ghost use Rattle.words.specs.Sets.{has as in_set};
ghost use Rattle.cases.specs.declared.Case.{Case as TheCase};
ghost use Rattle.rules.specs.Kinds.{kind, acquiring};
ghost use Rattle.rules.specs.State.{State};
ghost use Rattle.rules.specs.Step.{step_code};
ghost use Rattle.sure.specs.Spent.{step_by, rivals as are_rivals};
ghost use Rattle.orders.specs.Rows.{SetOf};
ghost use Rattle.machine.specs.Shown.{shown_entry, Presets, Acts};
ghost use Rattle.spending.specs.Words.{key_at, spent_by};
ghost use Rattle.spending.specs.Spending.{Noted, RestedBy, Cleared};
ghost use Rattle.spending.specs.Given.{Noting, Resting};

use cases::{Case, Instr};
use machine::{Entry, Machine};

// The action that the step at position j commits.
pub fn action_at(j: usize) -> usize
    ensures { result ≡ cond (ltb (j / 64) 48) (j / 64) (j % 64) }
{
    if j / 64 < 48 { j / 64 } else { j % 64 }
}

// Whether the step at position j is spent.
pub fn is_spent(spent: &[u64; 50], j: usize) -> bool
    requires { j < 3200 }
    ensures { result ≡ spent_by spent.now (key_at j) }
{
    let w = j / 64;
    let e = j % 64;
    let here = words::has(spent[w], e);
    if w < 48 {
        here | ((e == 0) & words::has(spent[48], w))
    } else if w == 48 && e < 48 {
        words::has(spent[e], 0) | here
    } else {
        here
    }
}

// The step at position j is spent too.
pub fn note(spent: &mut [u64; 50], j: usize)
    requires { Noting spent.old j }
    ensures { Noted spent.old j spent.new }
{
    spent[j / 64] |= words::one(j % 64);
}

// Whether the instruction is an acquire.
fn acquires(i: Instr) -> bool
    ensures { result ≡ acquiring (kind i) }
{
    matches!(i, Instr::Acquire(_))
}

// Whether the entry and action k are acquires of one location.
fn rivals(case: &Case, m: &Machine, e: Entry, k: usize) -> bool
    requires { (m.now.issued ≤ 48) × (k < m.now.issued) }
    ensures { (c : TheCase) (s : State) → Presets c case.now.masks case.now.presets → Acts c m.now.issued m.now.acts s → result ≡ are_rivals s (shown_entry c e) (s.actions k) }
{
    acquires(e.instr)
        && machine::kind_at(&m.acts, k) == 6
        && committing::input(case, m, e.first)
            == committing::input(case, m, machine::entry_at(&m.acts, k).first)
}

// The acquires of the location that action e acquires.
fn woken(case: &Case, m: &Machine, e: Entry) -> u64
    requires { m.now.issued ≤ 48 }
    ensures { (c : TheCase) (s : State) → Presets c case.now.masks case.now.presets → Acts c m.now.issued m.now.acts s → SetOf m.now.issued (λ k. are_rivals s (shown_entry c e) (s.actions k)) result }
{
    let mut items: u64 = 0;
    for k in 0..m.issued {
        items = orders::with(items, k, rivals(case, m, e, k));
    }
    items
}

// Takes the commits of the actions of a set out of the words.
fn clear(spent: &mut [u64; 50], gone: u64)
    requires { length spent.old ≡ 50 }
    ensures { Cleared spent.old gone 48 spent.new }
{
    spent[48] = orders::minus(spent[48], gone);
    for k in 0..48 {
        if words::has(gone, k) {
            spent[k] = 0;
        }
    }
}

// The processors of a set whose issues stay spent when p issues.
fn still_spent(x: u64, issued: usize, p: usize) -> u64
    requires { (issued ≤ 48) × (p < 64) }
    ensures { (q : ℕ) → in_set result q ≡ (in_set x q && not (eqb q p || leb 48 (suc issued))) }
{
    let last = 48 <= issued + 1;
    if last {
        0
    } else {
        orders::minus(x, words::one(p))
    }
}

// Leaves what stays spent when the step at position j is taken: an issue and an acquire's commit alone wake steps.
pub fn rest(case: &Case, m: &Machine, spent: &mut [u64; 50], j: usize)
    requires { Resting m.now.issued spent.old j }
    ensures { (c : TheCase) (s : State) → Presets c case.now.masks case.now.presets → Acts c m.now.issued m.now.acts s → step_code c s (step_by s (key_at j)) ≡ 0 → RestedBy s (step_by s (key_at j)) spent.old spent.new }
{
    if 49 <= j / 64 {
        spent[49] = still_spent(spent[49], m.issued, j % 64);
        return;
    }
    let k = action_at(j);
    if k < m.issued && machine::kind_at(&m.acts, k) == 6 {
        let gone = woken(case, m, machine::entry_at(&m.acts, k));
        clear(spent, gone);
    }
}
