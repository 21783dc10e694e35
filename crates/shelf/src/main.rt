// Prints the numbers over a shelf: a file of blocks on standard input, in pieces as they come.
#![tactic(auto)]

ghost use Rattle.std.specs.Prelude.{◌≤◌, length};
ghost use Rattle.shelf.specs.Said.{Answered};

use shelves::Reading;
use std::io;
use std::io::{IsTerminal, Read, Stderr};

// With so many bytes a shelf has 65,536 blocks: it is refused, whatever follows.
const MOST: usize = 33554432;

// On a terminal, how many blocks were read; what is written next stands over it.
fn show(screen: Stderr, left: usize) {
    if screen.is_terminal() {
        let blocks = MOST.saturating_sub(left) / 512;
        let _ = eprint!(screen; "{blocks} blocks\r");
    }
}

// The same line, empty again.
fn hide(screen: Stderr) {
    if screen.is_terminal() {
        let _ = eprint!(screen; "            \r");
    }
}

// What is printed of the file that was read. The longest report has 318 bytes at most.
fn answer(read: Reading, text: &mut [u8]) -> usize
    requires { 318 ≤ length text.old }
    ensures { Answered read text.old text.new result }
{
    shelves::report(text, read)
}

fn main(rt: HostRuntime) -> io::Result<()> {
    let mut piece = [0u8; 65536];
    let mut read = shelves::begun();
    let mut left = MOST;
    while left > 0 {
        // A read that fails ends the file.
        let n = rt.stdin().read(&mut piece).unwrap_or(0);
        if n == 0 {
            break;
        }
        read = shelves::read_on(read, &piece[..n]);
        left = left.saturating_sub(n);
        show(rt.stderr(), left);
    }
    hide(rt.stderr());
    let mut text = [0u8; 318];
    let end = answer(read, &mut text);
    rt.write_all(&text[..end])
}
