// Lists every outcome of a case on a store-buffer machine within a bound of instructions, by a depth-first search that runs a quiet
// instruction alone, records an outcome as soon as every place counter is at its count, and leaves out moves that are spent.
#![tactic(auto)]

ghost use Rattle.std.specs.Prelude.{◌≡◌, true, cond, ℕ, ◌<◌, length, is_some, unwrap_or, IfSome};
ghost use Rattle.words.specs.Sets.{has as in_set};
ghost use Rattle.boards.specs.Machine.{Move};
ghost use Rattle.running.specs.Shown.{shown};
ghost use Rattle.running.specs.Valid.{Valid};
ghost use Rattle.boardlisting.specs.Moves.{move_at, left_by, open_at, SureAt};
ghost use Rattle.boardlisting.specs.Spent.{Touched, apart_by, Kept};
ghost use Rattle.boardlisting.specs.Ready.{Ready};
ghost use Rattle.boardlisting.specs.Given.{Opening, Touching, Taking, Taken, Sparing, Spared, Keeping, Finishing, Searching, Found, RefusedAt};
ghost use Rattle.boardlisting.specs.Searched.{Searched};
ghost use Rattle.boardlisting.specs.Outcomes.{machine_of, answer_of, IsBoardOutcomes};

use boards::Buffering;
use cases::{Case, Instr};
use running::Arrays;

// The store-buffer machine of a kind: 0 SC, 1 TSO, any other PSO, whose list holds those of both.
pub fn machine_of(kind: u32) -> Buffering
    ensures { result ≡ machine_of kind }
{
    match kind {
        0 => Buffering::Direct,
        1 => Buffering::Shared,
        _ => Buffering::Split,
    }
}

// How many records the buffer holds, whether a run was cut, and whether there was no room: a mark and no Result, since `Searched` speaks of it.
#[derive(Clone, Copy)]
pub struct Tally {
    pub count: usize,
    pub cut: bool,
    pub full: bool,
}

// What listing answers: the code, how many records there are, whether a run was cut, and the position that a block's code carries, 0 with any other.
#[derive(Clone, Copy)]
pub struct Answer {
    // A number, not an error: `womm_board` hands it over, and `answer_of` of `IsBoardOutcomes` names it.
    pub code: u8,
    pub count: usize,
    pub cut: bool,
    pub position: usize,
}

// What a move touches: its processor, the location if there is one, and whether it is a read, and a read or a drain.
#[derive(Clone, Copy)]
pub struct Touch {
    pub proc: usize,
    pub at: Option<u16>,
    pub looks: bool,
    pub light: bool,
}

// Whether the move at position i is open: 0 to 3 run a processor's next instruction, 4 + 8p + b drains buffer b of processor p.
fn is_open(case: &Case, k: Buffering, s: &Arrays, waits: u64, done: u64, i: usize) -> bool
    requires { Opening k case.now s.now waits i }
    ensures { result ≡ open_at k case.now (shown k case.now s.now) done i }
{
    if words::has(done, i) {
        false
    } else if i < 4 {
        running::can_run(case, k, s, i)
    } else {
        let j = i - 4;
        ((j / 8 < case.procs as usize) & (j % 8 < case.locs as usize)) & words::has(waits, j)
    }
}

// The machine after the move at position i, which may be taken.
fn take(case: &Case, k: Buffering, s: &Arrays, i: usize) -> Arrays
    requires { Taking k case.now s.now i }
    ensures { Taken k case.now s.now i result }
{
    if i < 4 {
        running::run(case, k, s, i)
    } else {
        running::drain(case, k, s, (i - 4) / 8, (i - 4) % 8)
    }
}

// The instructions to go after the move at position i, of n: drains are not counted.
fn left_after(i: usize, n: usize) -> usize
    requires { 0 < n }
    ensures { result ≡ left_by i n }
{
    if i < 4 { n - 1 } else { n }
}

// What the move at position i, which may be taken, touches.
fn touched(case: &Case, k: Buffering, s: &Arrays, i: usize) -> Touch
    requires { Touching k case.now s.now i }
    ensures { Touched k case.now (shown k case.now s.now) (move_at i) result }
{
    if i < 4 {
        let next = running::glance(case, k, s, i);
        let read = matches!(next.instr, Instr::Read(_, _));
        Touch {
            proc: i,
            at: (!next.quiet).then_some(next.at),
            looks: read,
            light: read,
        }
    } else {
        let j = i - 4;
        Touch {
            proc: j / 8,
            at: running::drain_at(k, s, j / 8, j % 8),
            looks: false,
            light: true,
        }
    }
}

// Whether two moves are apart.
fn apart(m: &Touch, z: &Touch) -> bool
    ensures { result ≡ apart_by m.now z.now }
{
    if m.proc == z.proc {
        m.light & z.light
    } else {
        !(m.at.is_some() & (m.at == z.at)) | (m.looks & z.looks)
    }
}

// Position i alone, if it is done and its move is apart from one that touches m; else nothing.
fn spared(case: &Case, k: Buffering, s: &Arrays, done: u64, m: &Touch, i: usize) -> u64
    requires { Sparing k case.now s.now done i }
    ensures { (move : Move) → Touched k case.now (shown k case.now s.now) move m.now → (j : ℕ) → in_set result j ≡ true → Spared k case.now (shown k case.now s.now) move done i j }
{
    if words::has(done, i) && apart(m, &touched(case, k, s, i)) {
        words::one(i)
    } else {
        0
    }
}

// Of the moves that are done, those that stay spent after the move at position i: all after a sure instruction, else those apart from it.
fn kept(case: &Case, k: Buffering, s: &Arrays, sure: Option<usize>, done: u64, i: usize) -> u64
    requires { Keeping k case.now s.now done i }
    ensures { Kept k case.now (shown k case.now s.now) (cond (is_some sure) 0 4) done i result }
{
    if sure.is_some() {
        return done;
    }
    let m = touched(case, k, s, i);
    let mut left = 0;
    for j in 0..36 {
        left |= spared(case, k, s, done, &m, j);
    }
    left
}

// A processor whose next instruction is quiet and may be run.
fn sure_run(case: &Case, k: Buffering, s: &Arrays) -> Option<usize>
    requires { Valid case.now s.now }
    ensures sure { SureAt k case.now (shown k case.now s.now) (unwrap_or result 4) }
    ensures inside { IfSome result (λ p. p < 4) }
{
    (0..4).find(|p| running::sure(case, k, s, *p))
}

// At the end of every program: the registers go in at their place.
fn finish(case: &Case, k: Buffering, s: &Arrays, out: &mut [u8], tally: Tally) -> Tally
    requires { Finishing k case.now s.now out.old tally.count }
    ensures { (n : ℕ) → Searched k case.now (shown k case.now s.now) n out.old tally out.new result }
{
    let put = records::insert(out, tally.count, running::registers(case, s));
    Tally {
        count: put.count,
        full: put.full,
        ..tally
    }
}

// Adds the outcomes of s within n instructions: a quiet instruction alone; else every move that is not spent. What can be found after a
// spent move is told already. No search is deeper than twice the bound.
fn explore(
    case: &Case,
    k: Buffering,
    s: &Arrays,
    n: usize,
    deep: usize,
    spent: u64,
    out: &mut [u8],
    tally: Tally,
) -> Tally
    requires { Ready k case.now s.now n deep spent out.old tally }
    ensures { Searched k case.now (shown k case.now s.now) n out.old tally out.new result }
{
    if running::ended(case, s) {
        return finish(case, k, s, out, tally);
    }
    if n == 0 {
        return Tally {
            cut: true,
            full: false,
            ..tally
        };
    }
    let sure = sure_run(case, k, s);
    let waits = stores::waiting(k, s.stores());
    let (from, to) = match sure {
        Some(p) => (p, p + 1),
        None => (0, 36),
    };
    let mut done = spent;
    let mut sum = tally;
    for at in from..to {
        if is_open(case, k, s, waits, done, at) {
            let rest = left_after(at, n);
            let left = kept(case, k, s, sure, done, at);
            let next = take(case, k, s, at);
            sum = explore(case, k, &next, rest, deep - 1, left, out, sum);
            if sum.full {
                return sum;
            }
            done |= words::one(at);
        }
    }
    sum
}

// Refuses with a code and its position: the buffer is all zeros.
fn refuse(code: u8, position: usize, buffer: &mut [u8]) -> Answer
    ensures { RefusedAt code position (length buffer.old) result buffer.new }
{
    records::clear(buffer);
    Answer {
        code,
        count: 0,
        cut: false,
        position,
    }
}

// The outcomes of a case on machine k within n instructions.
fn search(case: &Case, k: Buffering, n: usize, out: &mut [u8]) -> Answer
    requires { Searching case.now n }
    ensures { Found k case.now n (length out.old) result out.new }
{
    records::clear(out);
    let empty = Tally {
        count: 0,
        cut: false,
        full: false,
    };
    let found = explore(case, k, &running::start(case), n, 2 * n, 0, out, empty);
    if found.full {
        refuse(11, 0, out)
    } else {
        Answer {
            code: 0,
            count: found.count,
            cut: found.cut,
            position: 0,
        }
    }
}

// Lists the outcomes on machine k of the case that a block holds, within `bound` instructions.
pub fn outcomes(k: Buffering, block: &[u8], bound: u32, out: &mut [u8]) -> Answer
    ensures { IsBoardOutcomes k block.now bound (length out.old) (answer_of result) result.position out.new }
{
    let read = cases::read_case(block);
    if read.code != 0 {
        refuse(read.code, read.position, out)
    } else if bound > 48 {
        refuse(10, 0, out)
    } else {
        search(&read.case, k, bound as usize, out)
    }
}
