// The boot hand-off: can the receiver see ready and yet read an old word?
#![tactic(auto)]

ghost use Rattle.std.specs.Prelude.{◌≡◌, ◌↔◌, true, cond, ◌+◌, ◌≤◌, ◌<◌, eqb, ltb, length, get_or, set};
ghost use Rattle.clauses.specs.Wanted.{wanted};
ghost use Rattle.rules.specs.State.{initial};
ghost use Rattle.rules.specs.Womm.{womm};
ghost use Rattle.rules.specs.Building.{slot_of};
ghost use Rattle.runs.specs.Wanted.{WantedFrom};
ghost use Rattle.handoffs.specs.Plans.{legal as is_legal, fresh as is_fresh, locks as lock_of, sends as send_of, receives as receive_of, case_for};
ghost use Rattle.handoffs.specs.Verdict.{IsVerdict, Refused, IsHandoff};
ghost use Rattle.handoffs.specs.Inner.{handed_of, found_of, number_of, plan_of, deed_of, passing, four_at, no_code, receiver_code, presets_of, ready_at, touched_by, asked_for, clause_of, IsLow, Improved, ImprovedTwice, stale_at, stale_any, any_outcome};
ghost use Rattle.handoffs.specs.Given.{Short, Bounded, Improving, Considering, ConsideringTwo, Comparing, Judging};

use cases::{Case, Instr, Slot};
use clauses::{Asked, Clause};

// The code, the verdict (0 safe, 1 stale, 2 stuck; 0 with a refusal) and the schedule's length in bytes.
#[derive(Clone, Copy)]
pub struct Answer {
    pub code: u8,
    pub verdict: u8,
    pub length: usize,
}

// What a hand-off can come to.
#[derive(Clone, Copy)]
pub enum Verdict {
    Safe,
    Stale,
    Stuck,
}

// A plan by value: its length and its first four actions, 6 where there is none.
#[derive(Clone, Copy)]
pub struct Plan {
    pub count: usize,
    pub deeds: [u8; 4],
}

// What all questions of one hand-off share: the case, the bound of its runs, the sending plan, and the register that ready is read into.
#[derive(Clone, Copy)]
struct Question {
    case: Case,
    bound: usize,
    sending: Plan,
    ready: u8,
}

// Action i of a plan, 6 where there is none.
fn deed(plan: &[u8], i: usize) -> u8
    ensures { result ≡ get_or plan.now i 6 }
{
    if i < plan.len() { plan[i] } else { 6 }
}

fn plan_of(plan: &[u8]) -> Plan
    ensures { result ≡ plan_of plan.now }
{
    Plan {
        count: plan.len(),
        deeds: [deed(plan, 0), deed(plan, 1), deed(plan, 2), deed(plan, 3)],
    }
}

// Whether a plan has at most four actions, each at most 5.
fn four_at(p: Plan) -> bool
    ensures { result ≡ four_at p }
{
    let mut fine = p.count <= 4;
    for i in 0..4 {
        fine &= (p.count <= i) | (p.deeds[i] < 6);
    }
    fine
}

// How many of the four actions read ready.
fn readies(p: Plan) -> usize
    ensures { result ≡ passing (λ d. eqb d 3) p }
{
    p.deeds.iter().filter(|d| **d == 3).count()
}

// How many of the four actions touch a word.
fn touches(p: Plan) -> usize
    ensures { result ≡ passing (λ d. ltb d 4) p }
{
    p.deeds.iter().filter(|d| **d < 4).count()
}

// Whether the plans are ones.
fn legal(sending: &[u8], receiving: &[u8]) -> bool
    ensures { result ≡ is_legal sending.now receiving.now }
{
    let s = plan_of(sending);
    let r = plan_of(receiving);
    four_at(s) & four_at(r) & (readies(r) == 1) & (touches(r) <= 3)
}

// The register for a read after an action d, where k was for one at d.
fn fresh(k: u8, d: u8) -> u8
    requires { k < 100 }
    ensures { (result ≡ is_fresh k d) × (result ≤ k + 1) }
{
    if d < 4 { k + 1 } else { k }
}

// The instruction that takes or frees the lock.
fn locks(d: u8) -> Instr
    ensures { result ≡ lock_of d }
{
    match d {
        4 => Instr::Acquire(4),
        5 => Instr::Release(4),
        _ => Instr::Empty,
    }
}

// The sender's instruction.
fn sends(d: u8) -> Instr
    ensures { result ≡ send_of d }
{
    if d < 4 { Instr::Write(d, 1) } else { locks(d) }
}

// The receiver's instruction; a read goes to register k.
fn receives(d: u8, k: u8) -> Instr
    ensures { result ≡ receive_of (record { byte = d; register = k }) }
{
    if d < 4 { Instr::Read(k, d) } else { locks(d) }
}

// 48 empty slots.
fn no_code() -> [Slot; 48]
    ensures { result ≡ no_code }
{
    let empty = Slot {
        instr: Instr::Empty,
    };
    [empty; 48]
}

// The sender's instructions in the first four slots.
fn with_sender(p: Plan) -> [Slot; 48]
    ensures { result ≡ set (set (set (set no_code 0 (slot_of (send_of (deed_of p 0)))) 1 (slot_of (send_of (deed_of p 1)))) 2 (slot_of (send_of (deed_of p 2)))) 3 (slot_of (send_of (deed_of p 3))) }
{
    let mut code = no_code();
    for i in 0..4 {
        code[i] = Slot {
            instr: sends(p.deeds[i]),
        };
    }
    code
}

// The receiver's instructions in slots 12 to 15.
fn with_receiver(start: [Slot; 48], p: Plan) -> [Slot; 48]
    ensures { result ≡ receiver_code start p }
{
    let mut code = start;
    let mut k = 5;
    for i in 0..4 {
        code[12 + i] = Slot {
            instr: receives(p.deeds[i], k),
        };
        k = fresh(k, p.deeds[i]);
    }
    code
}

// The presets: registers 0 to 4 of both hold 0 to 4.
fn presets() -> [u16; 32]
    ensures { result ≡ presets_of }
{
    [
        0, 1, 2, 3, 4, 0, 0, 0, 0, 1, 2, 3, 4, 0, 0, 0, 0, 0, 0, 0, 0, 0, 0, 0, 0, 0, 0, 0, 0, 0,
        0, 0,
    ]
}

// The case of the two plans.
fn case_for(sending: &[u8], receiving: &[u8]) -> Case
    requires { Short sending.now receiving.now }
    ensures { result ≡ case_for sending.now receiving.now }
{
    let s = plan_of(sending);
    let r = plan_of(receiving);
    Case {
        procs: 2,
        locs: 5,
        counts: [s.count as u8, r.count as u8, 0, 0],
        masks: [31, 31, 0, 0],
        presets: presets(),
        memory: [0; 8],
        code: with_receiver(with_sender(s), r),
    }
}

// The register that ready is read into.
fn ready_at(p: Plan) -> u8
    ensures { (result ≡ ready_at p) × (result ≤ 8) }
{
    let mut k = 5;
    for i in 0..3 {
        if p.deeds[i] == 3 {
            return k;
        }
        k = fresh(k, p.deeds[i]);
    }
    k
}

// Whether d is a word other than ready that the sender touches.
fn touched_by(p: Plan, d: u8) -> bool
    ensures { result ≡ touched_by p d }
{
    (d < 3) & p.deeds.contains(&d)
}

// Register k of the receiver is v.
fn clause(k: u8, v: u16) -> Clause
    ensures { result ≡ clause_of k v }
{
    Clause {
        processor: 1,
        register: k,
        defined: true,
        value: v,
    }
}

// Ready is 1 and another read 0.
fn asked_for(ready: u8, other: u8) -> Asked
    ensures { result ≡ asked_for ready other }
{
    let one = clauses::with_clause(clauses::no_clauses(), clause(ready, 1));
    clauses::with_clause(one, clause(other, 0))
}

impl Question {
    // Asks for one outcome more, and keeps the lower of the two schedules: its length in bytes, if there is one.
    fn improve(&self, asked: Asked, best: Option<usize>, out: &mut [u8]) -> Option<usize>
        requires { Improving self.now.case self.now.bound asked out.old }
        ensures { Improved self.now.case (wanted asked) self.now.bound (found_of best) out.old (found_of result) out.new }
    {
        let mut other = [0u8; 384];
        let a = asking::settle(&self.case, self.bound, asked, &mut other);
        if a.yes {
            if best.is_some() {
                if records::below(&other, out) {
                    records::write(out, &other);
                    return Some(a.length);
                }
                return best;
            }
            records::write(out, &other);
            return Some(a.length);
        }
        best
    }

    // The same for an action d whose register is k, if it is one that can be stale.
    fn consider(&self, d: u8, k: u8, best: Option<usize>, out: &mut [u8]) -> Option<usize>
        requires { Considering self.now.case self.now.bound self.now.ready d k out.old }
        ensures { Improved self.now.case (stale_at self.now.sending self.now.ready d k) self.now.bound (found_of best) out.old (found_of result) out.new }
    {
        if touched_by(self.sending, d) {
            self.improve(asked_for(self.ready, k), best, out)
        } else {
            best
        }
    }

    // The same for two actions.
    fn consider_two(
        &self,
        d: u8,
        k: u8,
        e: u8,
        l: u8,
        best: Option<usize>,
        out: &mut [u8],
    ) -> Option<usize>
        requires { ConsideringTwo self.now.case self.now.bound self.now.ready d k e l out.old }
        ensures { ImprovedTwice self.now.case (stale_at self.now.sending self.now.ready d k) (stale_at self.now.sending self.now.ready e l) self.now.bound (found_of best) out.old (found_of result) out.new }
    {
        let a = self.consider(d, k, best, out);
        self.consider(e, l, a, out)
    }
}

// The lowest stale schedule of all the receiver's reads together.
fn stalest(case: &Case, n: usize, s: Plan, r: Plan, out: &mut [u8]) -> Option<usize>
    requires { Comparing case.now n r out.old }
    ensures { IsLow case.now (stale_any s r) n (found_of result) out.new }
{
    records::clear(out);
    let ready = ready_at(r);
    let two = fresh(5, r.deeds[0]);
    let three = fresh(two, r.deeds[1]);
    let four = fresh(three, r.deeds[2]);
    let question = Question {
        case: *case,
        bound: n,
        sending: s,
        ready,
    };
    let a = question.consider_two(r.deeds[0], 5, r.deeds[1], two, None, out);
    question.consider_two(r.deeds[2], three, r.deeds[3], four, a, out)
}

// Whether any run finishes.
fn finishes(case: &Case, n: usize) -> bool
    requires { Bounded case.now n }
    ensures { (result ≡ true) ↔ WantedFrom (womm case.now) any_outcome (initial case.now) n }
{
    let mut other = [0u8; 384];
    asking::settle(case, n, clauses::no_clauses(), &mut other).yes
}

// The answer with a verdict and the length of its schedule.
fn told(verdict: Verdict, length: usize) -> Answer
    ensures { handed_of result ≡ record { code = 0; verdict = number_of verdict; length = length } }
{
    let number = match verdict {
        Verdict::Safe => 0,
        Verdict::Stale => 1,
        Verdict::Stuck => 2,
    };
    Answer {
        code: 0,
        verdict: number,
        length,
    }
}

// The answer for legal plans and a buffer of 384 bytes.
fn judge(sending: &[u8], receiving: &[u8], out: &mut [u8]) -> Answer
    requires { Judging sending.now receiving.now out.old }
    ensures { IsVerdict sending.now receiving.now (handed_of result) out.new }
{
    let case = case_for(sending, receiving);
    let s = plan_of(sending);
    let r = plan_of(receiving);
    let n = 2 * (s.count + r.count);
    if let Some(length) = stalest(&case, n, s, r, out) {
        return told(Verdict::Stale, length);
    }
    if finishes(&case, n) {
        told(Verdict::Safe, 0)
    } else {
        told(Verdict::Stuck, 0)
    }
}

// Refuses with a code: no verdict, length 0, and the buffer is all zeros.
fn refuse(code: u8, out: &mut [u8]) -> Answer
    ensures { Refused code (length out.old) (handed_of result) out.new }
{
    records::clear(out);
    Answer {
        code,
        verdict: 0,
        length: 0,
    }
}

// What the hand-off of a sending and a receiving plan can come to: stale, with the lowest schedule to it, stuck, or safe.
pub fn handoff(sending: &[u8], receiving: &[u8], out: &mut [u8]) -> Answer
    ensures { IsHandoff sending.now receiving.now (length out.old) (handed_of result) out.new }
{
    if !legal(sending, receiving) {
        refuse(15, out)
    } else if out.len() != 384 {
        refuse(13, out)
    } else {
        judge(sending, receiving, out)
    }
}
