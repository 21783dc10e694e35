// Why the processors wait after a schedule.
#![tactic(auto)]

ghost use Rattle.std.specs.Prelude.{◌≡◌, ◌≤◌, ◌<◌, length, IfSome, unwrap_or};
ghost use Rattle.cases.specs.declared.Case.{Case as TheCase};
ghost use Rattle.rules.specs.Kinds.{kind, acquiring};
ghost use Rattle.rules.specs.State.{State};
ghost use Rattle.machine.specs.Shown.{shown, Presets, Acts};
ghost use Rattle.committing.specs.Given.{Asking, Arrays};
ghost use Rattle.replaying.specs.Inner.{Showing};
ghost use Rattle.progress.specs.Causes.{oldest as oldest_of, reason as reason_of, reasons};
ghost use Rattle.waiting.specs.Behind.{behind as behind_of};
ghost use Rattle.waiting.specs.Why.{IsWhy};

use cases::{Case, Instr};
use machine::Machine;
use replaying::Replayed;

// The oldest queued action of processor p.
fn oldest(m: &Machine, p: usize) -> Option<usize>
    requires { m.now.issued ≤ 48 }
    ensures there { IfSome result (λ k. k < m.now.issued) }
    ensures lowest { (c : TheCase) (s : State) → Acts c m.now.issued m.now.acts s → unwrap_or result s.count ≡ oldest_of s p }
{
    for k in 0..m.issued {
        if machine::queued(machine::entry_at(&m.acts, k), p) {
            return Some(k);
        }
    }
    None
}

// Whether an instruction is an acquire.
fn acquires(i: Instr) -> bool
    ensures { result ≡ acquiring (kind i) }
{
    matches!(i, Instr::Acquire(_))
}

// The reason behind a code of an oldest action's commit. A number, not an enum: `womm_why` hands it over, and `behind` of specs names it.
fn behind(code: u8, acquire: bool) -> u8
    ensures { result ≡ behind_of code acquire }
{
    match code {
        29 => 2,
        30 => 3,
        31 if acquire => 4,
        31 => 5,
        _ => 1,
    }
}

// Why processor p waits: 0 nothing is queued, 1 its oldest action may commit, 2 to 5 the cause.
fn reason(case: &Case, m: &Machine, p: usize) -> u8
    requires { Asking m.now.issued m.now.holders p }
    ensures { (c : TheCase) (s : State) → Presets c case.now.masks case.now.presets → Acts c m.now.issued m.now.acts s → Arrays c s m.now.issued m.now.acts m.now.rows m.now.sets m.now.holders case.now.locs → result ≡ reason_of c s p }
{
    match oldest(m, p) {
        None => 0,
        Some(k) => {
            let code = committing::commit_code(case, m, p, k, 0);
            behind(code, acquires(machine::entry_at(&m.acts, k).instr))
        }
    }
}

// Writes the reasons of a machine into a buffer of 4 bytes, 0 of an absent processor.
fn show(case: &Case, m: &Machine, causes: &mut [u8])
    requires { Showing case.now m.now 4 causes.old }
    ensures { causes.new ≡ reasons case.now (shown case.now m.now) }
{
    for p in 0..4 {
        causes[p] = if p < case.procs as usize {
            reason(case, m, p)
        } else {
            0
        };
    }
}

// Replays a schedule on the case that a block holds, and says why each processor waits then. Refused before the first step, the buffer is all zeros.
pub fn why(block: &[u8], schedule: &[u8], causes: &mut [u8]) -> Replayed
    ensures { IsWhy block.now schedule.now (length causes.old) result causes.new }
{
    match replaying::take_up(block, schedule, causes.len(), 4) {
        Ok(t) => {
            show(&t.case, &t.walked.machine, causes);
            Replayed::from(t.walked)
        }
        Err(refused) => {
            records::clear(causes);
            refused
        }
    }
}
