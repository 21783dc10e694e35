// Bytes laid into a lent slice from a position on; each function answers the position behind them.
// Slice and position stay two arguments: `Laid` speaks of both, and the pages name `word`, `decimal`, `refusal`, `replay` and `list`.
ghost use Rattle.std.specs.Prelude.{[], ◌∷◌};
ghost use Rattle.lines.specs.Laid.{Laid};

// One byte; at or past the end nothing changes.
pub fn put(text: &mut [u8], at: usize, b: u8) -> usize
    ensures { Laid text.old at (b ∷ []) text.new result }
{
    if at < text.len() {
        text[at] = b;
        at + 1
    } else {
        at
    }
}

// Several bytes.
pub fn word(text: &mut [u8], at: usize, bytes: &[u8]) -> usize
    ensures { Laid text.old at bytes.now text.new result }
{
    let mut end = at;
    for b in bytes {
        end = put(text, end, *b);
    }
    end
}
