// A step: the code that it gets, the place that goes with it, and the door through which every step is taken.
#![tactic(auto)]

ghost use Rattle.std.specs.Prelude.{◌≡◌, ℕ};
ghost use Rattle.cases.specs.declared.Case.{Case as TheCase};
ghost use Rattle.rules.specs.Step.{step_of, step_code, naming, step_place, after};
ghost use Rattle.machine.specs.declared.Machine.{Machine as TheMachine};
ghost use Rattle.machine.specs.Shown.{shown, Presets};
ghost use Rattle.machine.specs.Valid.{Valid};
ghost use Rattle.machine.specs.Given.{Accepted, Showing};
ghost use Rattle.machine.specs.Lent.{Program, Lent};
ghost use Rattle.stepping.specs.Coded.{Asking, Placing, Taking};

use cases::Case;
use machine::Machine;

// The code of bytes that say neither an issue nor a commit of a processor of the case.
const NO_STEP: u8 = 20;

// The code that a step gets.
pub fn code_of(
    case: &Case,
    program: &[u64; 48],
    m: &Machine,
    kind: u8,
    proc: u8,
    action: u8,
    source: u8,
) -> u8
    requires { Asking case.now.counts m.now.names m.now.holders case.now.procs m.now.issued }
    ensures { (c : TheCase) → Lent c program.now case.now.counts case.now.masks case.now.presets case.now.procs case.now.locs → Valid c m.now → result ≡ step_code c (shown c m.now) (step_of kind proc action source) }
{
    if case.procs <= proc {
        return NO_STEP;
    }
    match kind {
        0 if action == 0 && source == 0 => issuing::issue_code(case, program, m, proc as usize),
        1 => committing::commit_code(case, m, proc as usize, action as usize, source as usize),
        _ => NO_STEP,
    }
}

// Whether a code names an instruction.
fn names(code: u8) -> bool
    ensures { result ≡ naming code }
{
    matches!(code, 23..=25 | 27..=32)
}

// The place that goes with the code of a step: of an issue the place counter, of a commit the action's; 255 where the code names none.
pub fn place_of(m: &Machine, kind: u8, proc: u8, action: u8, code: u8) -> u8
    requires { Placing kind proc action code }
    ensures { (c : TheCase) (n : TheMachine) (source : ℕ) → Valid c n → n.places ≡ m.now.places → n.acts ≡ m.now.acts → code ≡ step_code c (shown c n) (step_of kind proc action source) → result ≡ step_place c (shown c n) (step_of kind proc action source) }
{
    if !names(code) {
        255
    } else if kind == 0 {
        m.places[proc as usize]
    } else {
        machine::entry_at(&m.acts, action as usize).place
    }
}

// Takes a step that nothing refuses, of kind 0 an issue, else a commit.
pub fn take(
    case: &Case,
    program: &[u64; 48],
    m: &mut Machine,
    kind: u8,
    p: usize,
    k: usize,
    src: usize,
)
    requires { Taking program.now m.old.places m.old.names m.old.holders m.old.acts m.old.rows m.old.sets m.old.issued (step_of kind p k src) }
    ensures { (c : TheCase) → Program c program.now → Presets c case.now.masks case.now.presets → c.memory ≡ case.now.memory → Accepted c m.old (step_of kind p k src) → Showing c (after c (shown c m.old) (step_of kind p k src)) m.new }
{
    if kind == 0 {
        issuing::issue(case, program, m, p);
    } else {
        committing::commit(case, m, p, k, src);
    }
}
