// Lists the outcomes of a case. Standard input is a block and a bound, 513 bytes in all.
#![tactic(auto)]

ghost use Rattle.std.specs.Prelude.{◌≡◌, ◌≤◌, length};
ghost use Rattle.outcomes.specs.Said.{Listing, Said, Answered};

use inputs::read_full;
use std::io;

// The text of the list of a block and a bound, or of its refusal; room for 682 records.
fn list(input: &[u8], text: &mut [u8]) -> usize
    requires { (length input.now ≡ 513) × (145304 ≤ length text.old) }
    ensures { Answered (Listing input.now) text.old text.new result }
{
    let mut records = [0u8; 65536];
    let listed = listing::outcomes(&input[..512], u32::from(input[512]), &mut records);
    if listed.code == 0 {
        lines::list(text, 0, &records[..96 * listed.count], listed.cut, input[0])
    } else {
        lines::refusal(text, 0, listed.code, listed.position)
    }
}

// What is printed of an input. The longest text has 145,304 bytes at most: 38 of the header, 213 of each of 682 lines.
fn answer(input: &[u8], text: &mut [u8]) -> usize
    requires { 145304 ≤ length text.old }
    ensures { Answered (Said input.now) text.old text.new result }
{
    if input.len() == 513 {
        list(input, text)
    } else {
        lines::refusal(text, 0, 1, 0)
    }
}

fn main(rt: HostRuntime) -> io::Result<()> {
    let mut input = [0u8; 4096];
    let n = read_full(&mut rt.stdin(), &mut input);
    let mut text = [0u8; 145304];
    let end = answer(&input[..n], &mut text);
    rt.write_all(&text[..end])
}
