// The numbers over a shelf, a file of blocks that is read in pieces.
#![tactic(auto)]

mod counts;
mod pieces;
mod printing;

pub use pieces::{begun, read_on};
pub use printing::report;

// What was counted over the blocks so far: how many there were, how many got each code (0 for accepted), how many instructions of
// each op the accepted ones had (0 for slots without one).
#[derive(Clone, Copy)]
pub struct Tally {
    blocks: u32,
    codes: [u32; 20],
    ops: [u32; 11],
}

// A file read so far: the tally of its whole blocks, and the bytes left over behind them, in front of `rest`.
#[derive(Clone, Copy)]
pub struct Reading {
    tally: Tally,
    rest: [u8; 512],
    over: usize,
}
