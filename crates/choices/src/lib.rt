// The steps that a search takes from a machine: one that may be taken alone, the quiet read's, or all, without those that are spent or needless.
#![tactic(auto)]

ghost use Rattle.std.specs.Prelude.{◌≡◌, true, cond, ℕ, ◌/◌, ◌%◌, ◌≤◌, ◌<◌, ltb, get_or, MatchOption, IfSome};
ghost use Rattle.words.specs.Small.{some_below};
ghost use Rattle.words.specs.Sets.{has as in_set};
ghost use Rattle.cases.specs.declared.Case.{Case as TheCase};
ghost use Rattle.cases.specs.Case.{count_of, instr_at};
ghost use Rattle.rules.specs.State.{State};
ghost use Rattle.sure.specs.Sure.{backward, forward as is_forward};
ghost use Rattle.sure.specs.Quiet.{ended as has_ended, pending};
ghost use Rattle.machine.specs.Shown.{place_of, names_of, shown, Acts};
ghost use Rattle.machine.specs.Fit.{Fit};
ghost use Rattle.machine.specs.Kept.{Kept};
ghost use Rattle.machine.specs.Valid.{Valid};
ghost use Rattle.machine.specs.Lent.{machine_of, Lent, Ending};
ghost use Rattle.spending.specs.Words.{opens};
ghost use Rattle.openings.specs.Given.{OfEntry, EntryIn, Entered, EntriesIn, Committing, ArraysIn, Issuing};
ghost use Rattle.choices.specs.Choice.{SureAt, QuietAt, NextAt};
ghost use Rattle.choices.specs.Finding.{FirstFresh, Readless, SureCommit, DeadAt, SettledRead, Settled};
ghost use Rattle.choices.specs.Given.{Turning, Naming, Span, Stretch, Scanning, Going, Sourcing};

use cases::{Case, Instr};
use machine::{Entry, Machine};

// The positions of the first commit of an action that is no read, of the first issue, and past them all.
const LONE: usize = 3072;

const ISSUES: usize = 3136;

const NONE: usize = 3200;

// The set of the items that have their value.
const VALUED: usize = 20;

// A quiet read and its sources.
#[derive(Clone, Copy)]
pub struct Quiet {
    pub read: usize,
    pub sources: u64,
}

// Where no read is quiet.
const UNQUIET: Quiet = Quiet {
    read: 48,
    sources: 0,
};

// Whether the instruction, at a place, may lead back to that place or before it.
fn leads_back(i: Instr, place: usize) -> bool
    ensures { result ≡ backward i place }
{
    match i {
        Instr::Branch(_, l) | Instr::Goto(l) => l as usize <= place,
        _ => false,
    }
}

// Whether an instruction of processor p may lead back.
fn turns_back(case: &Case, p: usize) -> bool
    requires { Turning case.now p }
    ensures { result ≡ some_below (count_of case.now p) (λ i. backward (instr_at case.now p i) i) }
{
    for i in 0..case.counts[p] as usize {
        if leads_back(case.code[12 * p + i].instr, i) {
            return true;
        }
    }
    false
}

// Whether every label of the case lies past its own instruction.
pub fn forward(case: &Case) -> bool
    requires { Fit case.now }
    ensures { result ≡ is_forward case.now }
{
    for p in 0..case.procs as usize {
        if turns_back(case, p) {
            return false;
        }
    }
    true
}

// The first position from j on, before `end`, whose bit is set and that is not spent. All are of one word.
fn first_fresh(word: u64, spent: &[u64; 50], j: usize, end: usize) -> Option<usize>
    requires { Stretch j end }
    ensures { MatchOption result (FirstFresh word spent.now j end end) (λ i. (i < end) × FirstFresh word spent.now j end i) }
{
    let start = 64 * (j / 64);
    let mut rest = (word >> (j % 64)) << (j % 64);
    while 0 < rest {
        let i = start + orders::lowest(rest);
        if end <= i {
            return None;
        }
        if !spending::is_spent(spent, i) {
            return Some(i);
        }
        rest = orders::others(rest);
    }
    None
}

// The end of the word that has position j, and at most `to`.
fn word_end(j: usize, to: usize) -> usize
    requires { (j < to) × (to ≤ 3200) }
    ensures { (j < result) × (result ≤ to) × ((i : ℕ) → j ≤ i → i < result → i / 64 ≡ j / 64) }
{
    let end = 64 * (j / 64) + 64;
    if to < end { to } else { end }
}

// The first position from j on, or `to` before it, whose word is that of a read of the set or has no read.
fn next_word(reads: u64, j: usize, to: usize) -> usize
    requires { Span j to }
    ensures { Readless reads j to result }
{
    let w = j / 64;
    if 48 <= w {
        return j;
    }
    let start = 64 * openings::first_of(reads, w, 48);
    if start <= j {
        return j;
    }
    if to < start { to } else { start }
}

// The first position from `at` on whose step is accepted and neither spent nor needless, or `to` where there is none before it.
pub fn next_step(
    case: &Case,
    program: &[u64; 48],
    m: &Machine,
    spent: &[u64; 50],
    at: usize,
    to: usize,
) -> usize
    requires { Scanning case.now.counts m.now.names m.now.holders case.now.procs m.now.issued spent.now at to }
    ensures { (c : TheCase) → Lent c program.now case.now.counts case.now.masks case.now.presets case.now.procs case.now.locs → c.memory ≡ case.now.memory → Valid c m.now → NextAt c (shown c m.now) spent.now at to result }
{
    let reads = openings::queued_reads(&m.sets);
    let mut j = next_word(reads, at, to);
    while j < to {
        let asks_issues = ISSUES <= j;
        if asks_issues {
            let word = openings::issues(case, program, m);
            return first_fresh(word, spent, j, to).unwrap_or(to);
        }
        let end = word_end(j, to);
        let word = openings::open_word(case, m, j / 64);
        let left = needless::unechoed(case, m, spent, word, j / 64);
        if let Some(i) = first_fresh(left, spent, j, end) {
            return i;
        }
        j = next_word(reads, end, to);
    }
    to
}

// The first action of a sure kind whose commit is accepted.
fn sure_commit(case: &Case, m: &Machine) -> Option<usize>
    requires { Committing m.now.issued case.now.procs m.now.holders }
    ensures low { IfSome result (λ k. k < 48) }
    ensures found { (c : TheCase) (s : State) → ArraysIn c s case.now.masks case.now.presets case.now.procs case.now.locs m.now.issued m.now.acts m.now.rows m.now.sets m.now.holders → MatchOption result (SureCommit c s 48) (SureCommit c s) }
{
    let sure = openings::queued_sure(&m.sets) & openings::leading(&m.sets);
    let mut k = openings::first_of(sure, 0, m.issued);
    while k < m.issued {
        if openings::may_commit(case, m, k) {
            return Some(k);
        }
        k = openings::first_of(sure, k + 1, m.issued);
    }
    None
}

// The first processor that may issue.
fn issuer(case: &Case, program: &[u64; 48], m: &Machine) -> Option<usize>
    requires { Issuing case.now.counts m.now.names case.now.procs m.now.issued }
    ensures low { IfSome result (λ p. p < 4) }
    ensures opened { (c : TheCase) (s : State) → Lent c program.now case.now.counts case.now.masks case.now.presets case.now.procs case.now.locs → Acts c m.now.issued m.now.acts s → s.places ≡ (λ q. place_of (get_or m.now.places q 0)) → s.names ≡ names_of c m.now.names → IfSome result (λ p. opens c s 49 p ≡ true) }
{
    for p in 0..4 {
        if openings::may_issue(case, program, m, p) {
            return Some(p);
        }
    }
    None
}

// The position of the commit of a dead read from its least source, where one is accepted.
fn first_dead(case: &Case, m: &Machine) -> Option<usize>
    requires { Naming m.now.issued case.now.procs m.now.names }
    ensures { (c : TheCase) (s : State) → EntriesIn c s case.now.masks m.now.rows m.now.sets case.now.procs m.now.issued m.now.acts → s.names ≡ names_of c m.now.names → IfSome result (DeadAt c s) }
{
    let reads = openings::queued_reads(&m.sets);
    if reads == 0 {
        return None;
    }
    let inner = needless::ignored(m);
    let mut k = openings::first_of(reads, 0, m.issued);
    while k < m.issued {
        if words::has(inner, k) {
            let a = machine::entry_at(&m.acts, k);
            let e = orders::lowest(openings::sources(case, m, a, k));
            if e < 64 {
                return Some(64 * k + e);
            }
        }
        k = openings::first_of(reads, k + 1, m.issued);
    }
    None
}

// The position of an accepted step that may be taken alone, with n steps to go: a sure one, any issue once the cut mark is set, or the commit of a dead read; 3200 where none was found.
pub fn sure_step(
    case: &Case,
    program: &[u64; 48],
    m: &Machine,
    n: usize,
    ahead: bool,
    marked: bool,
) -> usize
    requires { Going case.now.counts m.now.names m.now.holders case.now.procs m.now.issued n }
    ensures { (c : TheCase) → Lent c program.now case.now.counts case.now.masks case.now.presets case.now.procs case.now.locs → ahead ≡ is_forward c → Valid c m.now → SureAt c marked n (shown c m.now) result }
{
    if let Some(k) = sure_commit(case, m) {
        return LONE + k;
    }
    if marked | (ahead | (m.issued + n <= 48)) {
        if let Some(p) = issuer(case, program, m) {
            return ISSUES + p;
        }
    }
    first_dead(case, m).unwrap_or(NONE)
}

// Whether every place counter is at its processor's count.
fn ended(case: &Case, places: &[u8; 4]) -> bool
    requires { case.now.procs ≤ 4 }
    ensures { (c : TheCase) (s : State) → Ending c s case.now.counts places.now case.now.procs → result ≡ has_ended c s }
{
    let mut all = true;
    for p in 0..case.procs as usize {
        all &= places[p] == case.counts[p];
    }
    all
}

// Whether a write to location l is queued.
fn write_pending(sets: &[u64; 21], l: usize) -> bool
    requires { l < 8 }
    ensures { (c : TheCase) (s : State) → Kept c s sets.now → result ≡ some_below s.count (λ j. pending l (s.actions j)) }
{
    orders::minus(sets[l], sets[VALUED]) != 0
}

// The sources of the entry, read k, where no write to its location is queued; else nothing.
fn settled_sources(case: &Case, m: &Machine, e: Entry, k: usize) -> u64
    requires { OfEntry case.now.procs e k }
    ensures { (c : TheCase) (s : State) → EntryIn c s case.now.masks m.now.rows m.now.sets case.now.procs e k → (result ≡ 0 → ⊥) → SettledRead c s k × ((i : ℕ) → in_set result i ≡ opens c s k i) }
{
    if write_pending(&m.sets, e.loc as usize) {
        0
    } else {
        openings::sources(case, m, e, k)
    }
}

// The first read with a source to whose location no write is queued, with its sources.
fn first_settled(case: &Case, m: &Machine) -> Option<Quiet>
    requires { Entered m.now.issued case.now.procs }
    ensures low { IfSome result (λ q. q.read < 48) }
    ensures found { (c : TheCase) (s : State) → EntriesIn c s case.now.masks m.now.rows m.now.sets case.now.procs m.now.issued m.now.acts → IfSome result (λ q. Settled c s q.read q.sources) }
{
    let reads = openings::queued_reads(&m.sets);
    let mut k = openings::first_of(reads, 0, m.issued);
    while k < m.issued {
        let e = machine::entry_at(&m.acts, k);
        let sources = settled_sources(case, m, e, k);
        if sources != 0 {
            return Some(Quiet { read: k, sources });
        }
        k = openings::first_of(reads, k + 1, m.issued);
    }
    None
}

// A quiet read that is accepted from some item, with its sources, or 48 where there is none.
pub fn quiet_read(case: &Case, m: &Machine) -> Quiet
    requires { Entered m.now.issued case.now.procs }
    ensures { (result.read ≤ 48) × ((c : TheCase) (s : State) → Ending c s case.now.counts m.now.places case.now.procs → EntriesIn c s case.now.masks m.now.rows m.now.sets case.now.procs m.now.issued m.now.acts → QuietAt c s result.read result.sources) }
{
    if !ended(case, &m.places) {
        return UNQUIET;
    }
    first_settled(case, m).unwrap_or(UNQUIET)
}

// The first position from `at` on, before `to`, of a source of the read that they are all of which is neither spent nor needless, else `to`.
pub fn next_source(
    case: &Case,
    m: &Machine,
    spent: &[u64; 50],
    sources: u64,
    at: usize,
    to: usize,
) -> usize
    requires { Sourcing m.now.issued spent.now at to }
    ensures { (c : TheCase) (s : State) → c.memory ≡ case.now.memory → Acts c m.now.issued m.now.acts s → ((i : ℕ) → in_set sources i ≡ opens c s (at / 64) i) → NextAt c s spent.now at to result }
{
    let left = needless::unechoed(case, m, spent, sources, at / 64);
    first_fresh(left, spent, at, to).unwrap_or(to)
}

// The item that the step at position j names.
pub fn source_at(j: usize) -> usize
    ensures { result ≡ cond (ltb (j / 64) 48) (j % 64) 0 }
{
    if j / 64 < 48 { j % 64 } else { 0 }
}
