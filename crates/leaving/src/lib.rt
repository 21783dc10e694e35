// Where a search may leave a machine: a release is queued that can never be committed, and no cut is left to find.
#![tactic(auto)]

ghost use Rattle.std.specs.Prelude.{◌≡◌, true, ◌&&◌, not, ℕ, cond, ◌≤◌, ◌<◌, length, get_or};
ghost use Rattle.words.specs.Sets.{has as in_set};
ghost use Rattle.words.specs.Small.{some_below};
ghost use Rattle.cases.specs.declared.Case.{Case as TheCase};
ghost use Rattle.rules.specs.State.{State};
ghost use Rattle.sure.specs.Futile.{futile, queued, drains as is_drained, leaves};
ghost use Rattle.machine.specs.Shown.{holder_of, Presets, Acts};
ghost use Rattle.machine.specs.Kept.{Kept};
ghost use Rattle.leaving.specs.Given.{Testing, Tested};

use cases::Case;
use machine::{Entry, Machine};

// The kind of a release, and the sets of the releases and of the items that have their value.
const RELEASE: u8 = 7;

const RELEASES: usize = 15;

const VALUED: usize = 20;

// Whether action k, whose entry is e, is a release that can never be committed; x is the value of its first register.
fn futile_at(case: &Case, m: &Machine, e: Entry, x: usize, k: usize) -> bool
    requires { Testing m.now.holders k }
    ensures { (c : TheCase) (s : State) → Tested c s case.now.masks m.now.sets m.now.holders e x k → result ≡ true → futile s k ≡ true }
{
    let p = e.proc as usize;
    if 4 <= p {
        return false;
    }
    let kind = rules::kind_of(e.instr);
    let unset = committing::unready(&case.masks, &m.sets, e);
    let bars = committing::barred_by(committing::holder_at(&m.holders, x), kind, p);
    let behind = sights::held(&m.sets, p, k, 2, 0);
    !e.done & ((kind == RELEASE) & (!unset & (bars & !behind)))
}

// The queued releases, as items.
fn queued_releases(m: &Machine) -> u64
    ensures { (a : ℕ) → in_set result a ≡ (in_set (get_or m.now.sets 15 0) a && not (in_set (get_or m.now.sets 20 0) a)) }
{
    orders::minus(m.sets[RELEASES], m.sets[VALUED])
}

// Whether some action is such a release: the sets tell which are queued releases.
fn some_futile(case: &Case, m: &Machine) -> bool
    requires { (m.now.issued ≤ 48) × (length m.now.holders ≡ 8) }
    ensures { (c : TheCase) (s : State) → Presets c case.now.masks case.now.presets → Acts c m.now.issued m.now.acts s → Kept c s m.now.sets → s.holders ≡ (λ l. holder_of (get_or m.now.holders l 0)) → result ≡ true → some_below s.count (futile s) ≡ true }
{
    let releases = queued_releases(m);
    for k in 0..m.issued {
        if words::has(releases, 8 + k) {
            let e = machine::entry_at(&m.acts, k);
            let x = committing::input(case, m, e.first) as usize;
            if futile_at(case, m, e, x, k) {
                return true;
            }
        }
    }
    false
}

// How many actions are in the queues.
fn queue(m: &Machine) -> usize
    requires { m.now.issued ≤ 48 }
    ensures { (result ≤ 48) × ((c : TheCase) (s : State) → Kept c s m.now.sets → s.count ≡ m.now.issued → result ≡ queued s) }
{
    let mut n: usize = 0;
    for k in 0..m.issued {
        n += sights::waits(m, k) as usize;
    }
    n
}

// Whether a run that takes all n steps commits each of 48 actions.
fn drains(m: &Machine, n: usize) -> bool
    requires { (m.now.issued ≤ 48) × (n ≤ 96) }
    ensures { (c : TheCase) (s : State) → Kept c s m.now.sets → s.count ≡ m.now.issued → result ≡ is_drained n s }
{
    if n + 2 * m.issued < 96 {
        return false;
    }
    96 + queue(m) <= n + 2 * m.issued
}

// Whether a search may leave the machine with n steps to go, where the cut mark is set or not; where it may, this need not say so.
// Most machines have no queued release: the sets tell.
pub fn leave(case: &Case, m: &Machine, n: usize, marked: bool) -> bool
    requires { (m.now.issued ≤ 48) × (length m.now.holders ≡ 8) × (n ≤ 96) }
    ensures { (c : TheCase) (s : State) → Presets c case.now.masks case.now.presets → Acts c m.now.issued m.now.acts s → Kept c s m.now.sets → s.holders ≡ (λ l. holder_of (get_or m.now.holders l 0)) → result ≡ true → leaves marked n s ≡ true }
{
    queued_releases(m) != 0 && (marked || drains(m, n)) && some_futile(case, m)
}
