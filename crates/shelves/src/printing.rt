// What is printed of a shelf, laid into a lent text.
ghost use Rattle.std.specs.Prelude.{◌≡◌, ℕ, ◌<◌, get_or};
ghost use Rattle.words.specs.Small.{counting};
ghost use Rattle.lines.specs.Laid.{Laid};
ghost use Rattle.shelves.specs.Report.{number_line, count_line, count_lines, block_lines, other_lines, text_of};

use crate::Reading;

// A count, 0 where there is none.
fn number(counts: &[u32], k: usize) -> usize
    ensures { result ≡ get_or counts.now k 0 }
{
    counts.get(k).map_or(0, |n| *n as usize)
}

// A word and a number.
fn number_line(text: &mut [u8], at: usize, word: &[u8], n: usize) -> usize
    ensures { Laid text.old at (number_line word.now n) text.new result }
{
    let behind_word = lines::word(text, at, word);
    let behind_number = lines::decimal(text, behind_word, n);
    lines::word(text, behind_number, b"\n")
}

// A word, what is counted, and how many there are.
fn count_line(text: &mut [u8], at: usize, word: &[u8], k: usize, n: usize) -> usize
    ensures { Laid text.old at (count_line word.now k n) text.new result }
{
    let behind_word = lines::word(text, at, word);
    let behind_name = lines::decimal(text, behind_word, k);
    let behind_gap = lines::word(text, behind_name, b" ");
    let behind_number = lines::decimal(text, behind_gap, n);
    lines::word(text, behind_number, b"\n")
}

// Such a line for `from` and those that follow it, n in all.
fn count_lines(
    text: &mut [u8],
    at: usize,
    word: &[u8],
    counts: &[u32],
    from: usize,
    n: usize,
) -> usize
    requires { (from < 256) × (n < 256) }
    ensures { Laid text.old at (count_lines word.now (λ (k : ℕ). get_or counts.now k 0) (counting from n)) text.new result }
{
    let mut end = at;
    for i in 0..n {
        end = count_line(text, end, word, from + i, number(counts, from + i));
    }
    end
}

// The lines of blocks by their code.
fn block_lines(text: &mut [u8], blocks: usize, codes: &[u32]) -> usize
    ensures { Laid text.old 0 (block_lines blocks (λ (k : ℕ). get_or codes.now k 0)) text.new result }
{
    let behind_blocks = number_line(text, 0, b"blocks ", blocks);
    let behind_accepted = number_line(text, behind_blocks, b"accepted ", number(codes, 0));
    let behind_seven = count_lines(text, behind_accepted, b"refused ", codes, 2, 6);
    count_lines(text, behind_seven, b"refused ", codes, 19, 1)
}

// The lines of what is left over, and of instructions by their op.
fn other_lines(text: &mut [u8], at: usize, over: usize, ops: &[u32]) -> usize
    ensures { Laid text.old at (other_lines over (λ (k : ℕ). get_or ops.now k 0)) text.new result }
{
    let behind_over = number_line(text, at, b"over ", over);
    count_lines(text, behind_over, b"op ", ops, 1, 10)
}

// The report of the file that was read, at the start of a lent text.
pub fn report(text: &mut [u8], r: Reading) -> usize
    ensures { Laid text.old 0 (text_of r) text.new result }
{
    let many = 65535 < r.tally.blocks;
    if many {
        number_line(text, 0, b"refused ", 16)
    } else {
        let behind_blocks = block_lines(text, r.tally.blocks as usize, &r.tally.codes);
        other_lines(text, behind_blocks, r.over, &r.tally.ops)
    }
}
