// The steps that a machine accepts, as words: the sources of a read, the other commits, the issues.
#![tactic(auto)]

ghost use Rattle.std.specs.Prelude.{◌≡◌, not, List, ℕ, ◌+◌, ◌<◌, eqb, get_or};
ghost use Rattle.words.specs.Sets.{has as in_set};
ghost use Rattle.cases.specs.declared.Case.{Case as TheCase};
ghost use Rattle.rules.specs.Kinds.{kind, reading};
ghost use Rattle.rules.specs.State.{State};
ghost use Rattle.rules.specs.Step.{commit, step_code};
ghost use Rattle.sure.specs.Sure.{sure_kind};
ghost use Rattle.orders.specs.Rows.{SetOf};
ghost use Rattle.machine.specs.Shown.{place_of, names_of, Acts};
ghost use Rattle.machine.specs.Kept.{Kept};
ghost use Rattle.machine.specs.Lent.{Lent};
ghost use Rattle.spending.specs.Words.{opens};
ghost use Rattle.openings.specs.Opening.{ready_read, in_queue, Queued, FirstOf, Front, Leading};
ghost use Rattle.openings.specs.Given.{OfEntry, EntryIn, Committing, CommittingOne, ArraysIn, Word, Upto, Issuing};

use cases::{Case, Instr};
use machine::{Entry, Machine};

// The sets of the reads and of the acquires; those of the processors' queues follow one another.
const READS: usize = 9;

const ACQUIRES: usize = 14;

const QUEUES: usize = 16;

// Whether the instruction is a read.
fn is_read(i: Instr) -> bool
    ensures { result ≡ reading (kind i) }
{
    matches!(i, Instr::Read(_, _))
}

// Whether the entry, action k, is a read that may be committed from every visible item.
fn read_ready(case: &Case, sets: &[u64; 21], e: Entry, k: usize) -> bool
    requires { OfEntry case.now.procs e k }
    ensures { (c : TheCase) (s : State) (rows : List ℕ) → EntryIn c s case.now.masks rows sets.now case.now.procs e k → result ≡ ready_read c s k }
{
    if !is_read(e.instr) | e.done | (case.procs <= e.proc) {
        return false;
    }
    !sights::held(sets, e.proc as usize, k, 1, e.loc) && sights::known(&case.masks, sets, e.first)
}

// The items that the commit of the entry, read k, may name; none of another action.
pub fn sources(case: &Case, m: &Machine, e: Entry, k: usize) -> u64
    requires { OfEntry case.now.procs e k }
    ensures { (c : TheCase) (s : State) → EntryIn c s case.now.masks m.now.rows m.now.sets case.now.procs e k → (i : ℕ) → in_set result i ≡ opens c s k i }
{
    if read_ready(case, &m.sets, e, k) {
        sights::visible_items(m, e.loc as usize, 8 + k)
    } else {
        0
    }
}

// The queued items: those of the four queues, 16 to 19 of the sets (`Kept`).
fn queued_items(sets: &[u64; 21]) -> u64
    ensures { (c : TheCase) (s : State) → Kept c s sets.now → (k : ℕ) → k < s.count → in_set result (8 + k) ≡ in_queue (s.actions k) }
{
    sets[19] | (sets[18] | (sets[17] | sets[16]))
}

// The queued reads.
pub fn queued_reads(sets: &[u64; 21]) -> u64
    ensures { (c : TheCase) (s : State) → Kept c s sets.now → Queued s reading result }
{
    (queued_items(sets) & sets[READS]) >> 8
}

// The queued actions that are no reads.
fn queued_others(sets: &[u64; 21]) -> u64
    ensures { (c : TheCase) (s : State) → Kept c s sets.now → Queued s (λ q. not (reading q)) result }
{
    orders::minus(queued_items(sets), sets[READS]) >> 8
}

// The queued actions of a sure kind: neither reads nor acquires.
pub fn queued_sure(sets: &[u64; 21]) -> u64
    ensures { (c : TheCase) (s : State) → Kept c s sets.now → Queued s sure_kind result }
{
    orders::minus(queued_items(sets), sets[READS] | sets[ACQUIRES]) >> 8
}

// The queue of processor p up to its first acquire: what is behind that is held back.
fn front(sets: &[u64; 21], p: usize) -> u64
    requires { p < 4 }
    ensures { (c : TheCase) (s : State) → Kept c s sets.now → Front s p result }
{
    let queue = sets[QUEUES + p];
    let acquire = orders::lowest(queue & sets[ACQUIRES]);
    if 63 <= acquire {
        queue
    } else {
        sights::below(queue, acquire + 1)
    }
}

// The queued actions without some that are behind a queued acquire of their processor.
pub fn leading(sets: &[u64; 21]) -> u64
    ensures { (c : TheCase) (s : State) → Kept c s sets.now → Leading s result }
{
    let low = front(sets, 1) | front(sets, 0);
    let high = front(sets, 3) | front(sets, 2);
    (high | low) >> 8
}

// The first number of the set from k on, below `end`, else `end`.
pub fn first_of(word: u64, k: usize, end: usize) -> usize
    requires { Upto k end }
    ensures { FirstOf word k end result }
{
    let r = k + orders::lowest(word >> k);
    if end <= r { end } else { r }
}

// Whether the commit of action k, from item 0, is accepted.
pub fn may_commit(case: &Case, m: &Machine, k: usize) -> bool
    requires { CommittingOne m.now.issued case.now.procs m.now.holders k }
    ensures { (c : TheCase) (s : State) → ArraysIn c s case.now.masks case.now.presets case.now.procs case.now.locs m.now.issued m.now.acts m.now.rows m.now.sets m.now.holders → result ≡ eqb (step_code c s (commit (s.actions k).proc k 0)) 0 }
{
    let e = machine::entry_at(&m.acts, k);
    e.proc < case.procs && committing::commit_code(case, m, e.proc as usize, k, 0) == 0
}

// The actions that are no reads and whose commits are accepted.
fn commits(case: &Case, m: &Machine) -> u64
    requires { Committing m.now.issued case.now.procs m.now.holders }
    ensures { (c : TheCase) (s : State) → ArraysIn c s case.now.masks case.now.presets case.now.procs case.now.locs m.now.issued m.now.acts m.now.rows m.now.sets m.now.holders → SetOf m.now.issued (opens c s 48) result }
{
    let others = queued_others(&m.sets) & leading(&m.sets);
    let mut items: u64 = 0;
    let mut k = first_of(others, 0, m.issued);
    while k < m.issued {
        items = orders::with(items, k, may_commit(case, m, k));
        k = first_of(others, k + 1, m.issued);
    }
    items
}

// Whether processor p may issue.
pub fn may_issue(case: &Case, program: &[u64; 48], m: &Machine, p: usize) -> bool
    requires { Issuing case.now.counts m.now.names case.now.procs m.now.issued × (p < 4) }
    ensures { (c : TheCase) (s : State) → Lent c program.now case.now.counts case.now.masks case.now.presets case.now.procs case.now.locs → Acts c m.now.issued m.now.acts s → s.places ≡ (λ q. place_of (get_or m.now.places q 0)) → s.names ≡ names_of c m.now.names → result ≡ opens c s 49 p }
{
    p < case.procs as usize && issuing::issue_code(case, program, m, p) == 0
}

// The processors that may issue.
pub fn issues(case: &Case, program: &[u64; 48], m: &Machine) -> u64
    requires { Issuing case.now.counts m.now.names case.now.procs m.now.issued }
    ensures { (c : TheCase) (s : State) → Lent c program.now case.now.counts case.now.masks case.now.presets case.now.procs case.now.locs → Acts c m.now.issued m.now.acts s → s.places ≡ (λ q. place_of (get_or m.now.places q 0)) → s.names ≡ names_of c m.now.names → SetOf 4 (opens c s 49) result }
{
    let mut items: u64 = 0;
    for p in 0..4 {
        items = orders::with(items, p, may_issue(case, program, m, p));
    }
    items
}

// The accepted steps of word w: a read's, or those of the other commits.
pub fn open_word(case: &Case, m: &Machine, w: usize) -> u64
    requires { Word m.now.issued case.now.procs m.now.holders w }
    ensures { (c : TheCase) (s : State) → ArraysIn c s case.now.masks case.now.presets case.now.procs case.now.locs m.now.issued m.now.acts m.now.rows m.now.sets m.now.holders → (e : ℕ) → e < 64 → in_set result e ≡ opens c s w e }
{
    if 48 <= w {
        commits(case, m)
    } else if w < m.issued {
        sources(case, m, machine::entry_at(&m.acts, w), w)
    } else {
        0
    }
}
