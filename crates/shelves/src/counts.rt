// One running tally, updated in place as each block is read.
ghost use Rattle.std.specs.Prelude.{◌≡◌, ◌+◌, ◌*◌, ◌<◌, ◌≤◌, length};
ghost use Rattle.shelves.specs.Blocks.{block_at, blocks_of};
ghost use Rattle.shelves.specs.Counts.{op_at, ops_of};
ghost use Rattle.shelves.specs.Tallies.{raised, raised_all, counted as counted_of, counted_all};

use crate::Tally;

// One more at k, as far as the count can hold it, where there is a count.
fn raise(counts: &mut [u32], k: usize)
    ensures { counts.new ≡ raised counts.old k }
{
    // Not by `get_mut`: of a slice after it a proof knows the length and no element.
    if k < counts.len() {
        counts[k] = counts[k].saturating_add(1);
    }
}

// The op in slot n, 0 where no instruction stands.
fn op_at(block: &[u8], n: usize) -> usize
    requires { n < 48 }
    ensures { result ≡ op_at block.now n }
{
    if n % 12 < cases::number(block, 4 + n / 12) {
        cases::number(block, 92 + 6 * n)
    } else {
        0
    }
}

// Each op of a block, once more.
fn raise_ops(ops: &mut [u32], block: &[u8])
    ensures { ops.new ≡ raised_all ops.old (ops_of block.now) }
{
    for n in 0..48 {
        raise(ops, op_at(block, n));
    }
}

// One more block. A refused one has no ops.
fn counted(t: &mut Tally, block: &[u8])
    ensures { t.new ≡ counted_of t.old block.now }
{
    let read = cases::read_case(block);
    t.blocks = t.blocks.saturating_add(1);
    raise(&mut t.codes, usize::from(read.code));
    let accepted = read.code == 0;
    if accepted {
        raise_ops(&mut t.ops, block);
    }
}

// Block i of a file, counted in place.
fn count_block(t: &mut Tally, file: &[u8], i: usize)
    requires { 512 * i + 512 ≤ length file.now }
    ensures { t.new ≡ counted_of t.old (block_at file.now i) }
{
    counted(t, &file[512 * i..512 * i + 512]);
}

// All whole blocks of a file, counted in place one after the other.
pub fn count_blocks(t: &mut Tally, file: &[u8])
    ensures { t.new ≡ counted_all t.old (blocks_of file.now) }
{
    // Not over `chunks_exact`: `count_block` is lent the file and takes the block's number, as its contract says (`block_at`).
    for i in 0..file.len() / 512 {
        count_block(t, file, i);
    }
}
