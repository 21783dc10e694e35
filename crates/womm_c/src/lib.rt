// The library for C: one export for each function of `womm` that C calls, with its clauses. include/womm.h declares them.
#![tactic(auto)]

ghost use Rattle.std.specs.Prelude.{length};
ghost use Rattle.racing.specs.Answer.{RacedAs};
ghost use Rattle.womm.specs.Exports.{ReadAs, WrittenAs, ReplayedAs, WhyAs, ListedAs, BoardListedAs};
ghost use Rattle.womm.specs.Asking.{AskedAs};
ghost use Rattle.womm.specs.Handing.{HandedAs};
ghost use Rattle.womm.specs.Typing.{TextReadAs, TextWrittenAs};

use clauses::Clause;
use womm::Answer;

#[unsafe(no_mangle)]
pub extern "C" fn womm_read(block: &[u8], position: &mut usize, usual: &mut usize) -> u32
    ensures { ReadAs block.now result position.new usual.new }
{
    womm::womm_read(block, position, usual)
}

#[unsafe(no_mangle)]
pub extern "C" fn womm_write(block: &mut [u8], position: &mut usize) -> u32
    ensures { WrittenAs block.old result position.new block.new }
{
    womm::womm_write(block, position)
}

#[unsafe(no_mangle)]
pub extern "C" fn womm_replay(
    block: &[u8],
    schedule: &[u8],
    res: &mut [u8],
    steps: &mut usize,
    place: &mut usize,
    position: &mut usize,
) -> u32
    ensures { ReplayedAs block.now schedule.now (length res.old) result steps.new place.new position.new res.new }
{
    womm::womm_replay(block, schedule, res, steps, place, position)
}

#[unsafe(no_mangle)]
pub extern "C" fn womm_why(
    block: &[u8],
    schedule: &[u8],
    causes: &mut [u8],
    steps: &mut usize,
    place: &mut usize,
    position: &mut usize,
) -> u32
    ensures { WhyAs block.now schedule.now (length causes.old) result steps.new place.new position.new causes.new }
{
    womm::womm_why(block, schedule, causes, steps, place, position)
}

#[unsafe(no_mangle)]
pub extern "C" fn womm_race(
    block: &[u8],
    schedule: &[u8],
    first: &mut usize,
    second: &mut usize,
    steps: &mut usize,
    place: &mut usize,
    position: &mut usize,
) -> u32
    ensures { RacedAs block.now schedule.now result first.new second.new steps.new place.new position.new }
{
    womm::womm_race(block, schedule, first, second, steps, place, position)
}

#[unsafe(no_mangle)]
pub extern "C" fn womm_outcomes(
    block: &[u8],
    bound: u32,
    records: &mut [u8],
    count: &mut usize,
    cut: &mut usize,
    position: &mut usize,
) -> u32
    ensures { ListedAs block.now bound (length records.old) result count.new cut.new position.new records.new }
{
    womm::womm_outcomes(block, bound, records, count, cut, position)
}

#[unsafe(no_mangle)]
pub extern "C" fn womm_ask(
    block: &[u8],
    bound: u32,
    clauses: &[Clause],
    schedule: &mut [u8],
) -> Answer
    ensures { AskedAs block.now bound clauses.now (length schedule.old) result schedule.new }
{
    womm::womm_ask(block, bound, clauses, schedule)
}

#[unsafe(no_mangle)]
pub extern "C" fn womm_handoff(
    sending: &[u8],
    receiving: &[u8],
    schedule: &mut [u8],
    verdict: &mut usize,
    length: &mut usize,
) -> u32
    ensures { HandedAs sending.now receiving.now schedule.old result verdict.new length.new schedule.new }
{
    womm::womm_handoff(sending, receiving, schedule, verdict, length)
}

#[unsafe(no_mangle)]
pub extern "C" fn womm_board(
    kind: u32,
    block: &[u8],
    bound: u32,
    records: &mut [u8],
    count: &mut usize,
    cut: &mut usize,
    position: &mut usize,
) -> u32
    ensures { BoardListedAs kind block.now bound (length records.old) result count.new cut.new position.new records.new }
{
    womm::womm_board(kind, block, bound, records, count, cut, position)
}

#[unsafe(no_mangle)]
pub extern "C" fn womm_read_text(
    text: &[u8],
    block: &mut [u8],
    line: &mut usize,
    usual: &mut usize,
) -> u32
    ensures { TextReadAs text.now (length block.old) result line.new usual.new block.new }
{
    womm::womm_read_text(text, block, line, usual)
}

#[unsafe(no_mangle)]
pub extern "C" fn womm_write_text(
    block: &[u8],
    text: &mut [u8],
    size: &mut usize,
    position: &mut usize,
) -> u32
    ensures { TextWrittenAs block.now (length text.old) result size.new position.new text.new }
{
    womm::womm_write_text(block, text, size, position)
}
