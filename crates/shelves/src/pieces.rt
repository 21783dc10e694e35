// A file that comes in pieces, which may end anywhere.
ghost use Rattle.std.specs.Prelude.{[]};
ghost use Rattle.shelves.specs.Blocks.{blocks_of};
ghost use Rattle.shelves.specs.Tallies.{counted_all};
ghost use Rattle.shelves.specs.Readings.{Settled, After, Onwards};

use crate::counts::count_blocks;
use crate::{Reading, Tally};

// Nothing was read yet.
pub fn begun() -> Reading
    ensures { After [] result }
{
    Reading {
        tally: Tally {
            blocks: 0,
            codes: [0; 20],
            ops: [0; 11],
        },
        rest: [0; 512],
        over: 0,
    }
}

// What is behind a full block: its whole blocks are counted, and what is left over is kept.
fn settled(mut tally: Tally, mut rest: [u8; 512], bytes: &[u8]) -> Reading
    ensures { Settled (counted_all tally (blocks_of bytes.now)) bytes.now result }
{
    count_blocks(&mut tally, bytes);
    let over = bytes.len() % 512;
    rest[..over].copy_from_slice(&bytes[bytes.len() - over..]);
    Reading { tally, rest, over }
}

// The next piece of the file.
pub fn read_on(r: Reading, piece: &[u8]) -> Reading
    ensures { Onwards r piece.now result }
{
    let Reading {
        mut tally,
        mut rest,
        over,
    } = r;
    let over = over.min(512);
    let n = piece.len().min(512 - over);
    rest[over..over + n].copy_from_slice(&piece[..n]);
    if over + n < 512 {
        return Reading {
            tally,
            rest,
            over: over + n,
        };
    }
    count_blocks(&mut tally, &rest);
    settled(tally, rest, &piece[n..])
}
