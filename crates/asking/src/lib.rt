// Asks whether an outcome that meets some clauses is possible within a bound, and by which schedule.
#![tactic(auto)]

ghost use Rattle.std.specs.Prelude.{◌≡◌, true, false, ◌+◌, ◌-◌, ◌≤◌, ◌<◌, length, take, drop, ◌++◌};
ghost use Rattle.clauses.specs.Wanted.{wanted, clauses_of};
ghost use Rattle.runs.specs.Asking.{Laid, IsAnswer, Refused};
ghost use Rattle.rules.specs.Step.{after};
ghost use Rattle.rules.specs.Result.{finished};
ghost use Rattle.rules.specs.Womm.{womm};
ghost use Rattle.rules.specs.Bytes.{step_bytes};
ghost use Rattle.machine.specs.Shown.{shown};
ghost use Rattle.machine.specs.Given.{Showing};
ghost use Rattle.asking.specs.Asked.{answer_of, bad_clause, bad_clauses, IsAsked};
ghost use Rattle.asking.specs.Inner.{Standing, Looking, Leading, Rowed, Fitting, Going, Wanting, ReachOf, step_at, FirstIn, RowSpan, LowestAt, Settling};

use cases::Case;
use clauses::{Asked, Clause};
use machine::Machine;
use searching::Tally;
use std::ops::Range;

// Whether an outcome is within reach, and, if none is, whether a run was cut: `ReachOf` speaks of both marks.
#[derive(Clone, Copy)]
pub struct Reach {
    pub found: bool,
    pub cut: bool,
}

// What is asked of a case: the case with its program, whether every label of it lies past its own instruction, and the clauses.
#[derive(Clone, Copy)]
pub struct Question {
    pub case: Case,
    pub program: [u64; 48],
    pub ahead: bool,
    pub asked: Asked,
}

// What asking answers: the code, yes or no, the schedule's length in bytes, the cut mark, and the position that a block's code carries, 0 with any other.
// Numbers and no Result: `answer_of` of specs/Asked.antt reads them so, and `womm_ask` hands them to C.
#[derive(Clone, Copy)]
pub struct Answer {
    pub code: u8,
    pub yes: bool,
    pub length: usize,
    pub cut: bool,
    pub position: usize,
}

impl Question {
    // Whether an outcome of m within n steps meets the clauses: a list of those that do, with no room for one.
    fn within_reach(&self, m: &Machine, n: usize) -> Reach
        requires { Standing self.now.case self.now.program m.now n self.now.ahead self.now.asked }
        ensures { ReachOf self.now.case (wanted self.now.asked) (shown self.now.case m.now) n result }
    {
        let tally = searching::explore(
            &self.case,
            &self.program,
            m,
            3200,
            n,
            self.ahead,
            self.asked,
            &[0; 50],
            &mut [0; 1],
            Tally::default(),
        );
        Reach {
            found: tally.full,
            cut: tally.cut,
        }
    }

    // The machine after the step at position j, which is accepted.
    fn after_step(&self, m: &Machine, j: usize) -> Machine
        requires { Going self.now.case self.now.program m.now j }
        ensures { Showing self.now.case (after self.now.case (shown self.now.case m.now) (step_at (shown self.now.case m.now) j)) result }
    {
        let mut next = *m;
        searching::enter(&self.case, &self.program, &mut next, j);
        next
    }

    // The first position of a span after whose step an outcome is within reach.
    fn first_in_reach(&self, m: &Machine, n: usize, span: Range<usize>) -> Option<usize>
        requires { Looking self.now.case self.now.program m.now n self.now.ahead self.now.asked span.start span.end }
        ensures { FirstIn self.now.case (wanted self.now.asked) (shown self.now.case m.now) (n - 1) span.start span.end result }
    {
        // No `for`: a turn goes on behind the position that was found.
        let mut at = span.start;
        while at < span.end {
            let j = choices::next_step(&self.case, &self.program, m, &[0; 50], at, span.end);
            if j < span.end && self.within_reach(&self.after_step(m, j), n - 1).found {
                return Some(j);
            }
            at = j + 1;
        }
        None
    }

    // The position of the lowest step after which an outcome is within reach.
    fn lowest_step(&self, m: &Machine, n: usize) -> usize
        requires { Leading self.now.case self.now.program m.now n self.now.ahead self.now.asked }
        ensures { LowestAt self.now.case (wanted self.now.asked) (shown self.now.case m.now) (n - 1) result }
    {
        for i in 0..193 {
            if let Some(j) = self.first_in_reach(m, n, row_span(&self.case, m, i)) {
                return j;
            }
        }
        // Not reached: `Leading` says that some row holds one. An Option would have the caller take a None apart that cannot come.
        3200
    }

    // Lays the lowest schedule to an outcome into a cleared buffer and gives its length.
    fn lowest(&self, n: usize, out: &mut [u8]) -> usize
        requires { Wanting self.now.case self.now.program n self.now.ahead self.now.asked out.old }
        ensures { Laid (womm self.now.case) (wanted self.now.asked) step_bytes n 384 result out.new }
    {
        let mut m = machine::start(&self.case);
        for k in 0..n {
            if machine::finished(&self.case, &m) {
                return 4 * k;
            }
            let j = self.lowest_step(&m, n - k);
            put_step(out, 4 * k, bytes_at(&self.case, &m, j));
            m = self.after_step(&m, j);
        }
        4 * n
    }
}

// The positions of row i: the issues, or the commits of one processor and action.
fn row_span(case: &Case, m: &Machine, i: usize) -> Range<usize>
    requires { Rowed case.now m.now i }
    ensures { RowSpan case.now (shown case.now m.now) i result }
{
    if i == 0 {
        return 3136..3200;
    }
    let p = (i - 1) / 48;
    let k = (i - 1) % 48;
    if m.issued <= k {
        return 0..0;
    }
    let e = machine::entry_at(&m.acts, k);
    if words::wide(e.proc) != p {
        return 0..0;
    }
    if rules::kind_of(e.instr) == 1 {
        return 64 * k..64 * k + 64;
    }
    3072 + k..3073 + k
}

// The bytes of the step at position j.
fn bytes_at(case: &Case, m: &Machine, j: usize) -> [u8; 4]
    requires { Fitting case.now m.now j }
    ensures { step_bytes (step_at (shown case.now m.now) j) ≡ result }
{
    if 49 <= j / 64 {
        return [0, (j % 64) as u8, 0, 0];
    }
    let k = spending::action_at(j);
    let e = machine::entry_at(&m.acts, k);
    [1, e.proc, k as u8, choices::source_at(j) as u8]
}

// Puts the bytes of a step in at a place.
fn put_step(out: &mut [u8], at: usize, bytes: [u8; 4])
    requires { at + 4 ≤ length out.old }
    ensures { out.new ≡ take at out.old ++ (bytes ++ drop (at + 4) out.old) }
{
    out[at..at + 4].copy_from_slice(&bytes);
}

// Answers for a case, within n steps.
pub fn settle(case: &Case, n: usize, asked: Asked, out: &mut [u8]) -> Answer
    requires { Settling case.now n asked out.old }
    ensures { IsAnswer (womm case.now) (wanted asked) step_bytes n 384 (answer_of result) out.new × (result.position ≡ 0) }
{
    records::clear(out);
    let question = Question {
        case: *case,
        program: machine::program(case),
        ahead: choices::forward(case),
        asked,
    };
    let reach = question.within_reach(&machine::start(case), n);
    if reach.found {
        return Answer {
            code: 0,
            yes: true,
            length: question.lowest(n, out),
            cut: false,
            position: 0,
        };
    }
    Answer {
        code: 0,
        yes: false,
        length: 0,
        cut: reach.cut,
        position: 0,
    }
}

// Whether the clause names an absent processor or a register over 7.
fn unnamed(k: Clause, procs: u8) -> bool
    ensures { result ≡ bad_clause procs k }
{
    (procs <= k.processor) | (7 < k.register)
}

// Whether there are over 8 clauses, or one names what there is not.
fn unaskable(asked: Asked, procs: u8) -> bool
    ensures { result ≡ bad_clauses procs (clauses_of asked) }
{
    let many = 8 < asked.count;
    if many {
        return true;
    }
    for k in &asked.clauses[..asked.count] {
        if unnamed(*k, procs) {
            return true;
        }
    }
    false
}

// Refuses with a code and its position: no, length 0, cut no, and the buffer is all zeros.
fn refuse(code: u8, position: usize, buffer: &mut [u8]) -> Answer
    ensures { Refused code (length buffer.old) (answer_of result) buffer.new × (result.position ≡ position) }
{
    records::clear(buffer);
    Answer {
        code,
        yes: false,
        length: 0,
        cut: false,
        position,
    }
}

// Whether an outcome of the case that a block holds meets the clauses within `bound` steps, and by which schedule.
pub fn ask(block: &[u8], bound: u32, asked: Asked, out: &mut [u8]) -> Answer
    ensures { IsAsked block.now bound (clauses_of asked) (length out.old) (answer_of result) result.position out.new }
{
    let read = cases::read_case(block);
    if read.code != 0 {
        return refuse(read.code, read.position, out);
    }
    if bound > 96 {
        return refuse(10, 0, out);
    }
    if unaskable(asked, read.case.procs) {
        return refuse(12, 0, out);
    }
    if out.len() != 384 {
        return refuse(13, 0, out);
    }
    settle(&read.case, bound as usize, asked, out)
}
