// The library for a host in another language: byte slices and numbers. `womm_c` exports it to C.
// C reads what comes back: so codes, marks and places are numbers, 255 is no action or no instruction, and answers go out through `&mut`, but for the record of `womm_ask`.
#![tactic(auto)]

ghost use Rattle.std.specs.Prelude.{length};
ghost use Rattle.clauses.specs.Wanted.{clauses_of};
ghost use Rattle.racing.specs.Answer.{RacedAs};
ghost use Rattle.womm.specs.Exports.{ReadAs, WrittenAs, ReplayedAs, WhyAs, ListedAs, BoardListedAs};
ghost use Rattle.womm.specs.Asking.{AskedAs};
ghost use Rattle.womm.specs.Handing.{HandedAs};
ghost use Rattle.womm.specs.Typing.{TextReadAs, TextWrittenAs};

use clauses::{Asked, Clause};

// Reads a block: 0 where it holds a case, else the first of codes 1 to 7 and 19; the position that the code carries; and 1 where an accepted block has
// a usual bound, which is dropped, else 0.
pub fn womm_read(block: &[u8], position: &mut usize, usual: &mut usize) -> u32
    ensures { ReadAs block.now result position.new usual.new }
{
    let read = cases::read_case(block);
    *position = read.position;
    *usual = read.usual as usize;
    read.code as u32
}

// Writes a block: the buffer holds a case in bytes 0 to 509, as the block's table lays it out, loses its usual bound and gets its check. Refused, it is
// all zeros.
pub fn womm_write(block: &mut [u8], position: &mut usize) -> u32
    ensures { WrittenAs block.old result position.new block.new }
{
    let fault = cases::seal(block);
    *position = fault.position;
    fault.code as u32
}

// Replays a schedule: the code, the steps taken, the place of the instruction that the code names (else 255), the block's position, and the
// result's bytes.
pub fn womm_replay(
    block: &[u8],
    schedule: &[u8],
    res: &mut [u8],
    steps: &mut usize,
    place: &mut usize,
    position: &mut usize,
) -> u32
    ensures { ReplayedAs block.now schedule.now (length res.old) result steps.new place.new position.new res.new }
{
    let replayed = replaying::replay(block, schedule, res);
    *steps = replayed.steps;
    *place = replayed.place as usize;
    *position = replayed.position;
    replayed.code as u32
}

// Says why each processor waits after a schedule: the code, the steps taken, the place of the instruction that the code names (else 255), the
// block's position, and a byte for each of the four processors: 0 nothing is queued, 1 its oldest queued action may commit, 2 that reads an
// undefined register, 3 is an acquire or a release of a location not below M, 4 an acquire of one held by another, 5 a release of one it does not hold.
pub fn womm_why(
    block: &[u8],
    schedule: &[u8],
    causes: &mut [u8],
    steps: &mut usize,
    place: &mut usize,
    position: &mut usize,
) -> u32
    ensures { WhyAs block.now schedule.now (length causes.old) result steps.new place.new position.new causes.new }
{
    let answer = waiting::why(block, schedule, causes);
    *steps = answer.steps;
    *place = answer.place as usize;
    *position = answer.position;
    answer.code as u32
}

// Gives the first race of a schedule after which all queues are empty: the code, the two actions, the earlier first (255 both where there is no race or a
// code), the steps taken, the place of the instruction that the code names (else 255), the block's position.
pub fn womm_race(
    block: &[u8],
    schedule: &[u8],
    first: &mut usize,
    second: &mut usize,
    steps: &mut usize,
    place: &mut usize,
    position: &mut usize,
) -> u32
    ensures { RacedAs block.now schedule.now result first.new second.new steps.new place.new position.new }
{
    let raced = racing::race(block, schedule);
    *first = raced.first;
    *second = raced.second;
    *steps = raced.steps;
    *place = raced.place as usize;
    *position = raced.position;
    raced.code as u32
}

// Lists the outcomes within a bound: the code, the count, the cut mark (1 yes, 0 no), the block's position, and the records' bytes.
pub fn womm_outcomes(
    block: &[u8],
    bound: u32,
    records: &mut [u8],
    count: &mut usize,
    cut: &mut usize,
    position: &mut usize,
) -> u32
    ensures { ListedAs block.now bound (length records.old) result count.new cut.new position.new records.new }
{
    let listed = listing::outcomes(block, bound, records);
    *count = listed.count;
    *cut = listed.cut as usize;
    *position = listed.position;
    listed.code as u32
}

// What asking for one result hands back: the code, the marks of yes and of cut (1 yes, 0 no), the schedule's length in bytes, and the position that a
// block's code carries, 0 with any other.
#[repr(C)]
#[derive(Clone, Copy)]
pub struct Answer {
    pub code: u32,
    pub yes: usize,
    pub length: usize,
    pub cut: usize,
    pub position: usize,
}

// Asks with clauses that are held by value.
fn ask_held(block: &[u8], bound: u32, asked: Asked, schedule: &mut [u8]) -> Answer
    ensures { AskedAs block.now bound (clauses_of asked) (length schedule.old) result schedule.new }
{
    let answer = asking::ask(block, bound, asked, schedule);
    Answer {
        code: answer.code as u32,
        yes: answer.yes as usize,
        length: answer.length,
        cut: answer.cut as usize,
        position: answer.position,
    }
}

// Asks whether a finished run within a bound meets all of the clauses, and by which schedule: each clause of the lent slice is read once.
pub fn womm_ask(block: &[u8], bound: u32, clauses: &[Clause], schedule: &mut [u8]) -> Answer
    ensures { AskedAs block.now bound clauses.now (length schedule.old) result schedule.new }
{
    let mut asked = clauses::no_clauses();
    for clause in clauses {
        asked = clauses::with_clause(asked, *clause);
    }
    ask_held(block, bound, asked, schedule)
}

// Judges a boot hand-off: the code, the verdict (0 safe, 1 stale, 2 stuck), and the lowest stale schedule with its length in bytes.
pub fn womm_handoff(
    sending: &[u8],
    receiving: &[u8],
    schedule: &mut [u8],
    verdict: &mut usize,
    length: &mut usize,
) -> u32
    ensures { HandedAs sending.now receiving.now schedule.old result verdict.new length.new schedule.new }
{
    let answer = handoffs::handoff(sending, receiving, schedule);
    *verdict = answer.verdict as usize;
    *length = answer.length;
    answer.code as u32
}

// Lists the outcomes on the store-buffer machine of a kind within a bound of instructions; answers as `womm_outcomes` does.
pub fn womm_board(
    kind: u32,
    block: &[u8],
    bound: u32,
    records: &mut [u8],
    count: &mut usize,
    cut: &mut usize,
    position: &mut usize,
) -> u32
    ensures { BoardListedAs kind block.now bound (length records.old) result count.new cut.new position.new records.new }
{
    let found = boardlisting::outcomes(boardlisting::machine_of(kind), block, bound, records);
    *count = found.count;
    *cut = found.cut as usize;
    *position = found.position;
    found.code as u32
}

// Reads a text into a block: 17 and 19 on the text with the line that they name, then 1 on a buffer that is not of 512 bytes; and 1 where an old text
// has a usual bound that is not 0, which is dropped, else 0. Refused, the buffer is all zeros.
pub fn womm_read_text(text: &[u8], block: &mut [u8], line: &mut usize, usual: &mut usize) -> u32
    ensures { TextReadAs text.now (length block.old) result line.new usual.new block.new }
{
    let typed = reading::text_to_block(text, block);
    *line = typed.line;
    *usual = typed.usual as usize;
    typed.code as u32
}

// Writes the text of a block: the block's codes with their position, then 18 on a buffer that is shorter than the text; and the text's length. Refused, the
// buffer is all zeros.
pub fn womm_write_text(block: &[u8], text: &mut [u8], size: &mut usize, position: &mut usize) -> u32
    ensures { TextWrittenAs block.now (length text.old) result size.new position.new text.new }
{
    let written = writing::block_to_text(block, text);
    *size = written.length;
    *position = written.position;
    written.code as u32
}
