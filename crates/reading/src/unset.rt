// The line of an instruction.
ghost use Rattle.std.specs.Prelude.{◌≡◌, ◌*◌, ◌≤◌, ◌<◌, length};
ghost use Rattle.judging.specs.Places.{instrs_before, line_at};

// How many instructions the first p processors have.
fn instrs_before(counts: &[u8], p: usize) -> usize
    requires { (p ≤ 4) × (length counts.now ≡ 4) }
    ensures { (result ≡ instrs_before counts.now p) × (result ≤ 255 * p) }
{
    let mut sum: usize = 0;
    for i in 0..p {
        sum += counts[i] as usize;
    }
    sum
}

// The line of the instruction at a position, where `behind` is one more than the number of lines.
pub fn line_at(behind: usize, counts: &[u8], position: usize) -> usize
    requires { (92 ≤ position) × (position < 380) × (length counts.now ≡ 4) × (instrs_before counts.now 4 ≤ behind) × (behind < 10000) }
    ensures { result ≡ line_at behind counts.now position }
{
    let all = instrs_before(counts, 4);
    let earlier = instrs_before(counts, (position - 92) / 72);
    behind - all + (earlier + (position - 92) % 72 / 6)
}
