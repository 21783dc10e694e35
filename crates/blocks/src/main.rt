// Reads the blocks that its arguments name. Of each it prints the code and its position, or for code 0 whether writing the case gives the same bytes again.
#![tactic(auto)]

use cases::{Case, CaseRead};
use inputs::read_full;
use std::env::{Env, FillError};
use std::fs::File;
use std::{io, str};

// Whether writing the case gives the block again.
fn kept(case: Case, block: &[u8]) -> bool {
    let mut again = [0u8; 512];
    cases::write_case(case, &mut again);
    &again[..] == block
}

// The line of a block.
fn report(rt: &HostRuntime, name: &str, block: &[u8]) -> io::Result<()> {
    let CaseRead {
        code,
        position,
        usual,
        case,
    } = cases::read_case(block);
    if code == 0 {
        let dropped = if usual { ", usual bound dropped" } else { "" };
        let again = if kept(case, block) {
            "the same"
        } else {
            "another"
        };
        println!(rt; "{name} code 0{dropped}, written again {again}")
    } else {
        println!(rt; "{name} code {code} at {position}")
    }
}

// A file longer than the buffer is cut to it, and is longer than a block all the same.
fn report_file(rt: &HostRuntime, name: &str) -> io::Result<()> {
    match File::open(rt, name) {
        Ok(mut file) => {
            let mut block = [0u8; 4096];
            let n = read_full(&mut file, &mut block);
            report(rt, name, &block[..n])
        }
        Err(e) => {
            let _ = eprintln!(rt; "{name}: {e}");
            Ok(())
        }
    }
}

// Only a name in UTF-8 can be opened.
fn report_argument(rt: &HostRuntime, name: &[u8]) -> io::Result<()> {
    match str::from_utf8(name) {
        Ok(name) => report_file(rt, name),
        Err(e) => {
            let _ = rt.stderr().write_all(name);
            let _ = eprintln!(rt; ": {e}");
            Ok(())
        }
    }
}

// A name longer than the buffer is longer than any path: it is taken as empty, and cannot be opened.
fn main(rt: HostRuntime) -> io::Result<()> {
    let mut name = [0u8; 4096];
    for k in 1..usize::MAX {
        match rt.arg(k, &mut name) {
            Ok(n) => report_argument(&rt, &name[..n])?,
            Err(FillError::TooLong) => report_argument(&rt, b"")?,
            Err(FillError::NotPresent) => break,
        }
    }
    Ok(())
}
