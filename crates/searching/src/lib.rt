// The search under the list and the question: every outcome within a bound that meets the clauses, depth first over sure, quiet and unspent steps.
#![tactic(auto)]

ghost use Rattle.std.specs.Prelude.{◌≡◌, true, false, ℕ, ◌/◌, ◌≤◌, ◌<◌, length};
ghost use Rattle.words.specs.Sets.{has as in_set};
ghost use Rattle.cases.specs.declared.Case.{Case as TheCase};
ghost use Rattle.clauses.specs.Wanted.{wanted};
ghost use Rattle.rules.specs.State.{State};
ghost use Rattle.rules.specs.Step.{step_code};
ghost use Rattle.rules.specs.Result.{finished};
ghost use Rattle.sure.specs.Spent.{Spent, step_by};
ghost use Rattle.machine.specs.Shown.{shown, Presets, Acts};
ghost use Rattle.machine.specs.Valid.{Valid};
ghost use Rattle.machine.specs.Given.{Showing};
ghost use Rattle.machine.specs.Lent.{machine_of, Program, Lent, Ending};
ghost use Rattle.spending.specs.Words.{key_at, opens};
ghost use Rattle.openings.specs.Given.{EntriesIn};
ghost use Rattle.searching.specs.Entered.{entered, Woken};
ghost use Rattle.searching.specs.Positions.{Swept, Chosen};
ghost use Rattle.searching.specs.Ready.{Ready, Choosing, Finishing, Registers, Entering, EnteringBy};
ghost use Rattle.searching.specs.Searched.{Searched, Explored};

use cases::Case;
use clauses::Asked;
use machine::Machine;

// How many records the buffer holds, whether a run was cut, and whether there was no room: a mark and no Result, since `Searched` speaks of it.
#[derive(Clone, Copy, Default)]
pub struct Tally {
    pub count: usize,
    pub cut: bool,
    pub full: bool,
}

// What is swept: the positions from, from + 1, .., to - 1; and, where they are those of one quiet read, its sources, else 0, as `Swept` and `Chosen` have it.
#[derive(Clone, Copy)]
pub struct Sweep {
    pub from: usize,
    pub to: usize,
    pub sources: u64,
}

// The positions to sweep: that of a sure step at j, unless it is spent; else those of a quiet read's sources; else all.
fn positions(case: &Case, m: &Machine, spent: &[u64; 50], j: usize) -> Sweep
    requires { (m.now.issued ≤ 48) × (case.now.procs ≤ 4) }
    ensures { (c : TheCase) (s : State) → Ending c s case.now.counts m.now.places case.now.procs → EntriesIn c s case.now.masks m.now.rows m.now.sets case.now.procs m.now.issued m.now.acts → Swept c s spent.now j result }
{
    if j < 3200 {
        return Sweep {
            from: j,
            to: if spending::is_spent(spent, j) {
                j
            } else {
                j + 1
            },
            sources: 0,
        };
    }
    let quiet = choices::quiet_read(case, m);
    let k = quiet.read;
    if k < 48 {
        return Sweep {
            from: 64 * k,
            to: 64 * k + 64,
            sources: quiet.sources,
        };
    }
    Sweep {
        from: 0,
        to: 3200,
        sources: 0,
    }
}

// The position to take next: that of the sure step, or the first from `at` on whose step is accepted and neither spent nor needless.
fn choose(
    case: &Case,
    program: &[u64; 48],
    m: &Machine,
    spent: &[u64; 50],
    sources: u64,
    at: usize,
    to: usize,
    j: usize,
) -> usize
    requires { Choosing case.now.counts m.now.names m.now.holders case.now.procs m.now.issued spent.now sources at to }
    ensures { (c : TheCase) → Lent c program.now case.now.counts case.now.masks case.now.presets case.now.procs case.now.locs → c.memory ≡ case.now.memory → Valid c m.now → ((sources ≡ 0 → ⊥) → (i : ℕ) → in_set sources i ≡ opens c (shown c m.now) (at / 64) i) → Chosen c (shown c m.now) spent.now at to j result }
{
    if j < 3200 {
        at
    } else if sources != 0 {
        choices::next_source(case, m, spent, sources, at, to)
    } else {
        choices::next_step(case, program, m, spent, at, to)
    }
}

// A finished machine: its registers go in at their place, if they meet the clauses.
fn finish(case: &Case, m: &Machine, asked: Asked, out: &mut [u8], tally: Tally) -> Tally
    requires { Finishing case.now.procs m.now.issued asked out.old tally.count }
    ensures { (c : TheCase) (s : State) → Registers c s case.now.masks case.now.presets m.now.names m.now.acts case.now.procs m.now.issued → finished c s ≡ true → (sp : Spent) (n : ℕ) → Searched c (wanted asked) sp s n out.old tally out.new result }
{
    let registers = machine::registers(case, m);
    if clauses::asked_meets(asked, &registers) {
        let put = records::insert(out, tally.count, registers);
        Tally {
            count: put.count,
            full: put.full,
            ..tally
        }
    } else {
        leave_off(tally)
    }
}

// A machine that is not finished, with no step to go: the run is cut.
fn cut_off(tally: Tally) -> Tally
    ensures { result ≡ record { count = tally.count; cut = true; full = false } }
{
    Tally {
        cut: true,
        full: false,
        ..tally
    }
}

// A machine from which no run finishes and none that is cut is left to tell.
fn leave_off(tally: Tally) -> Tally
    ensures { result ≡ record { count = tally.count; cut = tally.cut; full = false } }
{
    Tally {
        full: false,
        ..tally
    }
}

// Leaves what stays spent where the search goes on.
fn wake(case: &Case, m: &Machine, spent: &mut [u64; 50], i: usize)
    requires { (m.now.issued ≤ 48) × (length spent.old ≡ 50) }
    ensures { (c : TheCase) (s : State) → Presets c case.now.masks case.now.presets → Acts c m.now.issued m.now.acts s → (i < 3200 → step_code c s (step_by s (key_at i)) ≡ 0) → Woken s i spent.old spent.new }
{
    if i < 3200 {
        spending::rest(case, m, spent, i);
    }
}

// Takes the step at position i, where there is one.
pub fn enter(case: &Case, program: &[u64; 48], m: &mut Machine, i: usize)
    requires { EnteringBy program.now m.old.places m.old.names m.old.holders m.old.acts m.old.rows m.old.sets m.old.issued i }
    ensures { (c : TheCase) → Program c program.now → Presets c case.now.masks case.now.presets → c.memory ≡ case.now.memory → Entering c m.old i → Showing c (entered c (shown c m.old) i) m.new }
{
    if 3200 <= i {
        return;
    }
    if 3136 <= i {
        stepping::take(case, program, m, 0, i - 3136, 0, 0);
        return;
    }
    let k = spending::action_at(i);
    let e = machine::entry_at(&m.acts, k);
    stepping::take(
        case,
        program,
        m,
        1,
        words::wide(e.proc),
        k,
        choices::source_at(i),
    );
}

// Adds the outcomes that meet the clauses within n steps after the step at position i of the machine that is lent, or from it where i is 3200: a sure
// step alone, and any issue once a run was cut; else a quiet read with each of its sources; else every step. What is spent is left out.
pub fn explore(
    case: &Case,
    program: &[u64; 48],
    old: &Machine,
    i: usize,
    n: usize,
    ahead: bool,
    asked: Asked,
    spent: &[u64; 50],
    out: &mut [u8],
    tally: Tally,
) -> Tally
    requires { Ready case.now program.now old.now i n ahead asked spent.now out.old tally }
    ensures { Explored case.now (wanted asked) (shown case.now old.now) i spent.now n out.old tally out.new result }
{
    let mut m = *old;
    enter(case, program, &mut m, i);
    if machine::finished(case, &m) {
        return finish(case, &m, asked, out, tally);
    }
    if n == 0 {
        return cut_off(tally);
    }
    let marked = tally.cut;
    if leaving::leave(case, &m, n, marked) {
        return leave_off(tally);
    }
    let mut now = *spent;
    wake(case, old, &mut now, i);
    let j = choices::sure_step(case, program, &m, n, ahead, marked);
    let sweep = positions(case, &m, &now, j);
    // No `for`: a turn goes on behind the position that was chosen.
    let mut at = sweep.from;
    let mut sum = tally;
    while at < sweep.to {
        let k = choose(case, program, &m, &now, sweep.sources, at, sweep.to, j);
        if k < sweep.to {
            sum = explore(case, program, &m, k, n - 1, ahead, asked, &now, out, sum);
            if sum.full | (j < 3200) {
                return sum;
            }
            spending::note(&mut now, k);
        }
        at = k + 1;
    }
    sum
}
