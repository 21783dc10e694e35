// A replay: a schedule taken step by step on the case that a block holds.
#![tactic(auto)]

ghost use Rattle.std.specs.Prelude.{◌≡◌, cond, ℕ, ◌≤◌, ◌<◌, eqb, length, get_or, IfOk, IfErr};
ghost use Rattle.words.specs.Refusals.{first_code_of};
ghost use Rattle.cases.specs.declared.Case.{Case as TheCase};
ghost use Rattle.rules.specs.State.{State, waiting};
ghost use Rattle.rules.specs.Step.{steps_of};
ghost use Rattle.rules.specs.Result.{how_many, registers as registers_of, result_bytes};
ghost use Rattle.machine.specs.Shown.{place_of, shown, Acts};
ghost use Rattle.replaying.specs.Answer.{length_refusals, IsReplay};
ghost use Rattle.replaying.specs.Inner.{IsWalk, IsTaken, IsRefused, tail_of, Walking, Showing};

use cases::Case;
use machine::Machine;

// The code, the number of steps taken, the place of the instruction that the code names, else 255, and the position that a block's code carries,
// 0 with any other. Numbers, no Result and no Option: `IsReplay` reads them so, and `womm_replay` hands them to C.
#[derive(Clone, Copy)]
pub struct Replayed {
    pub code: u8,
    pub steps: usize,
    pub place: u8,
    pub position: usize,
}

// The code of the first refused step or 0, the number of steps before it, its place or 255, and the machine then: numbers, as `IsWalk` reads them.
#[derive(Clone, Copy)]
pub struct Walked {
    pub code: u8,
    pub steps: usize,
    pub place: u8,
    pub machine: Machine,
}

// A case, and a schedule that was taken on it.
#[derive(Clone, Copy)]
pub struct Taken {
    pub case: Case,
    pub walked: Walked,
}

impl From<Walked> for Replayed {
    ghost from_gives = { λ w r. r ≡ record { code = w.code; steps = w.steps; place = w.place; position = 0 } };

    fn from(w: Walked) -> Replayed {
        Replayed {
            code: w.code,
            steps: w.steps,
            place: w.place,
            position: 0,
        }
    }
}

// Takes the steps of a schedule until one is refused. Not inlined, so that a refused block does not pay for its machine.
#[inline(never)]
pub fn walk(case: &Case, schedule: &[u8]) -> Walked
    requires { Walking case.now schedule.now }
    ensures { IsWalk case.now (steps_of schedule.now) result }
{
    let program = machine::program(case);
    let mut m = machine::start(case);
    for steps in 0..schedule.len() / 4 {
        let i = 4 * steps;
        let kind = schedule[i];
        let proc = schedule[i + 1];
        let action = schedule[i + 2];
        let source = schedule[i + 3];
        let code = stepping::code_of(case, &program, &m, kind, proc, action, source);
        if code != 0 {
            return Walked {
                code,
                steps,
                place: stepping::place_of(&m, kind, proc, action, code),
                machine: m,
            };
        }
        stepping::take(
            case,
            &program,
            &mut m,
            kind,
            proc as usize,
            action as usize,
            source as usize,
        );
    }
    Walked {
        code: 0,
        steps: schedule.len() / 4,
        place: 255,
        machine: m,
    }
}

// How many actions processor p has in its queue.
fn queue_length(m: &Machine, p: usize) -> u8
    requires { m.now.issued ≤ 48 }
    ensures { (c : TheCase) (s : State) → Acts c m.now.issued m.now.acts s → result ≡ how_many s.count (λ k. waiting p (s.actions k)) }
{
    let mut n: u8 = 0;
    for k in 0..m.issued {
        n += u8::from(machine::queued(machine::entry_at(&m.acts, k), p));
    }
    n
}

// The place counter of processor p, then its queue's length, in the bytes after the registers; 0 of an absent processor.
fn tail_byte(case: &Case, m: &Machine, j: usize) -> u8
    requires { (m.now.issued ≤ 48) × (j < 8) }
    ensures { (c : TheCase) (s : State) → c.procs ≡ case.now.procs → Acts c m.now.issued m.now.acts s → ((p : ℕ) → s.places p ≡ place_of (get_or m.now.places p 0)) → result ≡ get_or (tail_of c s) j 0 }
{
    let p = j % 4;
    if case.procs as usize <= p {
        0
    } else if j < 4 {
        m.places[p]
    } else {
        queue_length(m, p)
    }
}

// Byte i of the result: the registers, then the rest.
fn result_byte(case: &Case, registers: &[u8; 96], m: &Machine, i: usize) -> u8
    requires { (m.now.issued ≤ 48) × (i < 104) }
    ensures { (c : TheCase) (s : State) → c.procs ≡ case.now.procs → Acts c m.now.issued m.now.acts s → ((p : ℕ) → s.places p ≡ place_of (get_or m.now.places p 0)) → registers.now ≡ registers_of c s → result ≡ get_or (result_bytes c s) i 0 }
{
    if i < 96 {
        registers[i]
    } else {
        tail_byte(case, m, i - 96)
    }
}

// Writes the result of a machine into a buffer of 104 bytes.
fn show(case: &Case, m: &Machine, res: &mut [u8])
    requires { Showing case.now m.now 104 res.old }
    ensures { res.new ≡ result_bytes case.now (shown case.now m.now) }
{
    let registers = machine::registers(case, m);
    for i in 0..104 {
        res[i] = result_byte(case, &registers, m, i);
    }
}

// The first of the codes of a block, 8 and 9: code is the block's own, wanted the size that the buffer should have.
// A number, as `womm_replay` hands it to C.
pub fn refusal(code: u8, schedule: usize, size: usize, wanted: usize) -> u8
    ensures { result ≡ cond (eqb code 0) (first_code_of (length_refusals wanted schedule size)) code }
{
    if code != 0 {
        code
    } else if schedule % 4 != 0 || 384 < schedule {
        8
    } else if size != wanted {
        9
    } else {
        0
    }
}

// Takes a schedule on the case that a block holds, for an answer into a buffer of this size; an `Err` is what is answered where the block, the schedule or
// the size is refused. Inlined, so that a refused block does not pay for a machine that is handed back.
#[inline(always)]
pub fn take_up(block: &[u8], schedule: &[u8], size: usize, wanted: usize) -> Result<Taken, Replayed>
    ensures taken { IfOk result (λ t. IsTaken block.now schedule.now size wanted t) }
    ensures refused { IfErr result (λ r. IsRefused block.now schedule.now size wanted r) }
{
    let read = cases::read_case(block);
    let code = refusal(read.code, schedule.len(), size, wanted);
    if code != 0 {
        return Err(Replayed {
            code,
            steps: 0,
            place: 255,
            position: read.position,
        });
    }
    Ok(Taken {
        case: read.case,
        walked: walk(&read.case, schedule),
    })
}

// Replays a schedule on the case that a block holds. Refused before the first step, the result is all zeros.
pub fn replay(block: &[u8], schedule: &[u8], res: &mut [u8]) -> Replayed
    ensures { IsReplay block.now schedule.now (length res.old) result res.new }
{
    match take_up(block, schedule, res.len(), 104) {
        Ok(t) => {
            show(&t.case, &t.walked.machine, res);
            Replayed::from(t.walked)
        }
        Err(refused) => {
            records::clear(res);
            refused
        }
    }
}
