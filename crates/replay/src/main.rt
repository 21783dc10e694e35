// Replays a schedule: a block of 512 bytes, then the schedule, on standard input. Prints the code and the number of steps taken, and the position of a block's code.
#![tactic(auto)]

ghost use Rattle.std.specs.Prelude.{◌≤◌, length};
ghost use Rattle.lines.specs.Laid.{Printed};
ghost use Rattle.replay.specs.Said.{line_of, said};

use inputs::read_full;
use std::io;

// The line of a replay.
fn report(block: &[u8], schedule: &[u8], text: &mut [u8]) -> usize
    requires { 66 ≤ length text.old }
    ensures { Printed (line_of block.now schedule.now) text.old text.new result }
{
    let mut result = [0u8; 104];
    let r = replaying::replay(block, schedule, &mut result);
    lines::replay(text, 0, r.code, r.steps, r.position)
}

// What is printed of an input: the first 512 bytes are the block; fewer are a block that is too short, and no schedule.
fn answer(input: &[u8], text: &mut [u8]) -> usize
    requires { 66 ≤ length text.old }
    ensures { Printed (said input.now) text.old text.new result }
{
    if input.len() < 512 {
        report(input, b"", text)
    } else {
        report(&input[..512], &input[512..], text)
    }
}

// The buffer is longer than a block and the longest schedule: input that fills it has a schedule that is too long, however much follows.
fn main(rt: HostRuntime) -> io::Result<()> {
    let mut input = [0u8; 4096];
    let n = read_full(&mut rt.stdin(), &mut input);
    let mut text = [0u8; 66];
    let end = answer(&input[..n], &mut text);
    rt.write_all(&text[..end])
}
