// The first race of a schedule.
#![tactic(auto)]

ghost use Rattle.std.specs.Prelude.{◌≡◌, ◌≤◌, ◌<◌, IfSome, unwrap_or};
ghost use Rattle.cases.specs.declared.Case.{Case as TheCase};
ghost use Rattle.rules.specs.Kinds.{kind, accesses as is_access, writing as is_write};
ghost use Rattle.rules.specs.State.{State};
ghost use Rattle.orders.specs.Rows.{order_of};
ghost use Rattle.machine.specs.Shown.{shown_entry, orders_of, Acts};
ghost use Rattle.committing.specs.Committed.{Entries};
ghost use Rattle.races.specs.Test.{conflict as conflict_of, unordered as unordered_of, races as races_of, partner as partner_of, opener as opener_of, first_of_race, second_of_race};
ghost use Rattle.racing.specs.Answer.{queued as queued_of, IsRace};
ghost use Rattle.racing.specs.Given.{One, Two};

use cases::Instr;
use machine::{Entry, Machine};
use replaying::Taken;

// The code, the two actions, 255 where there is no race, the number of steps taken, the place of the instruction that the code names, else 255, and the
// position that a block's code carries, 0 with any other. 255 for none, no Option: `IsRace` reads it so, and `womm_race` hands it to C.
#[derive(Clone, Copy)]
pub struct Raced {
    pub code: u8,
    pub first: usize,
    pub second: usize,
    pub steps: usize,
    pub place: u8,
    pub position: usize,
}

// Whether an instruction is a read or a write.
fn accesses(i: Instr) -> bool
    ensures { result ≡ is_access (kind i) }
{
    matches!(i, Instr::Read(_, _) | Instr::Write(_, _))
}

// Whether it is a write.
fn writes(i: Instr) -> bool
    ensures { result ≡ is_write (kind i) }
{
    matches!(i, Instr::Write(_, _))
}

// Whether two entries are reads or writes of one location, at least one a write.
fn conflict(a: Entry, b: Entry) -> bool
    ensures { (c : TheCase) → result ≡ conflict_of (shown_entry c a) (shown_entry c b) }
{
    accesses(a.instr) && accesses(b.instr) && a.loc == b.loc && (writes(a.instr) || writes(b.instr))
}

// Whether actions j and k stand ordered neither way.
fn unordered(rows: &[u64; 56], j: usize, k: usize) -> bool
    requires { (j < 48) × (k < 48) }
    ensures { result ≡ unordered_of (order_of rows.now) j k }
{
    !orders::before(rows, 8 + j, 8 + k) && !orders::before(rows, 8 + k, 8 + j)
}

// Whether actions j and k race.
fn races(m: &Machine, j: usize, k: usize) -> bool
    requires { Two m.now.issued j k }
    ensures { (c : TheCase) (s : State) → Acts c m.now.issued m.now.acts s → s.orders ≡ orders_of c s.actions m.now.rows → Entries c m.now.issued m.now.acts → result ≡ races_of s j k }
{
    let a = machine::entry_at(&m.acts, j);
    let b = machine::entry_at(&m.acts, k);
    conflict(a, b) && unordered(&m.rows, j, k)
}

// The lowest action after j that races with it.
fn partner(m: &Machine, j: usize) -> Option<usize>
    requires { One m.now.issued j }
    ensures there { IfSome result (λ k. k < m.now.issued) }
    ensures lowest { (c : TheCase) (s : State) → Acts c m.now.issued m.now.acts s → s.orders ≡ orders_of c s.actions m.now.rows → Entries c m.now.issued m.now.acts → unwrap_or result s.count ≡ partner_of s j }
{
    for k in j + 1..m.issued {
        if races(m, j, k) {
            return Some(k);
        }
    }
    None
}

// The lowest action that has a partner.
fn opener(m: &Machine) -> Option<usize>
    requires { m.now.issued ≤ 48 }
    ensures there { IfSome result (λ j. j < m.now.issued) }
    ensures lowest { (c : TheCase) (s : State) → Acts c m.now.issued m.now.acts s → s.orders ≡ orders_of c s.actions m.now.rows → Entries c m.now.issued m.now.acts → unwrap_or result s.count ≡ opener_of s }
{
    for j in 0..m.issued {
        if partner(m, j).is_some() {
            return Some(j);
        }
    }
    None
}

// The first race of a machine.
fn first(m: &Machine) -> Option<(usize, usize)>
    requires { m.now.issued ≤ 48 }
    ensures { (c : TheCase) (s : State) → Acts c m.now.issued m.now.acts s → s.orders ≡ orders_of c s.actions m.now.rows → Entries c m.now.issued m.now.acts → ((unwrap_or result (255, 255)).0 ≡ first_of_race s) × ((unwrap_or result (255, 255)).1 ≡ second_of_race s) }
{
    let j = opener(m)?;
    let k = partner(m, j)?;
    Some((j, k))
}

// Whether a queue is not empty.
fn queued(m: &Machine) -> bool
    requires { m.now.issued ≤ 48 }
    ensures { (c : TheCase) (s : State) → Acts c m.now.issued m.now.acts s → result ≡ queued_of s }
{
    for k in 0..m.issued {
        let e = machine::entry_at(&m.acts, k);
        if machine::queued(e, e.proc as usize) {
            return true;
        }
    }
    false
}

// What is answered with a code: no race, this many steps and this place.
fn refused(code: u8, steps: usize, place: u8, position: usize) -> Raced
    ensures { result ≡ record { code = code; first = 255; second = 255; steps = steps; place = place; position = position } }
{
    Raced {
        code,
        first: 255,
        second: 255,
        steps,
        place,
        position,
    }
}

// Replays a schedule on the case that a block holds and gives its first race: the first two reads or writes of one location, at least one a write, that
// happen neither before the other.
pub fn race(block: &[u8], schedule: &[u8]) -> Raced
    ensures { IsRace block.now schedule.now result }
{
    match replaying::take_up(block, schedule, 0, 0) {
        Err(r) => refused(r.code, r.steps, r.place, r.position),
        Ok(Taken { walked: w, .. }) => {
            if w.code != 0 {
                refused(w.code, w.steps, w.place, 0)
            } else if queued(&w.machine) {
                refused(14, w.steps, w.place, 0)
            } else {
                let (first, second) = first(&w.machine).unwrap_or((255, 255));
                Raced {
                    code: 0,
                    first,
                    second,
                    steps: w.steps,
                    place: w.place,
                    position: 0,
                }
            }
        }
    }
}
