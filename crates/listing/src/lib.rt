// Lists every outcome of a case within a bound.
#![tactic(auto)]

ghost use Rattle.std.specs.Prelude.{length};
ghost use Rattle.listing.specs.Outcomes.{answer_of, IsOutcomes};
ghost use Rattle.listing.specs.Given.{Searching, Found, RefusedAt};

use cases::Case;
use searching::Tally;

// What listing answers: the code, how many records there are, whether a run was cut, and the position that a block's code carries, 0 with any other.
// Numbers and no Result: `answer_of` of specs/Outcomes.antt reads them so, and `womm_outcomes` hands them to C.
#[derive(Clone, Copy)]
pub struct Answer {
    pub code: u8,
    pub count: usize,
    pub cut: bool,
    pub position: usize,
}

// Refuses with a code and its position: the buffer is all zeros.
fn refuse(code: u8, position: usize, buffer: &mut [u8]) -> Answer
    ensures { RefusedAt code position (length buffer.old) result buffer.new }
{
    records::clear(buffer);
    Answer {
        code,
        count: 0,
        cut: false,
        position,
    }
}

// The outcomes of a case within n steps.
fn search(case: &Case, n: usize, out: &mut [u8]) -> Answer
    requires { Searching case.now n }
    ensures { Found case.now n (length out.old) result out.new }
{
    records::clear(out);
    let fresh = [0u64; 50];
    let program = machine::program(case);
    let m = machine::start(case);
    let found = searching::explore(
        case,
        &program,
        &m,
        3200,
        n,
        choices::forward(case),
        clauses::no_clauses(),
        &fresh,
        out,
        Tally::default(),
    );
    if found.full {
        return refuse(11, 0, out);
    }
    Answer {
        code: 0,
        count: found.count,
        cut: found.cut,
        position: 0,
    }
}

// Lists the outcomes of the case that a block holds within `bound` steps.
pub fn outcomes(block: &[u8], bound: u32, out: &mut [u8]) -> Answer
    ensures { IsOutcomes block.now bound (length out.old) (answer_of result) result.position out.new }
{
    let read = cases::read_case(block);
    let code = read.code;
    if code != 0 {
        return refuse(code, read.position, out);
    }
    if bound > 96 {
        return refuse(10, 0, out);
    }
    search(&read.case, bound as usize, out)
}
