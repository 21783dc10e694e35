// The bytes of a block, its two-byte numbers and its check.
ghost use Rattle.std.specs.Prelude.{◌≡◌, ◌*◌, ◌<◌};
ghost use Rattle.words.specs.Numbers.{Exact};
ghost use Rattle.cases.specs.Block.{byte as byte_of, word as word_of, check as check_of};
ghost use Rattle.cases.specs.Given.{Weighing};

// The byte at position i, 0 past the end, as a number to compute with.
pub fn number(block: &[u8], i: usize) -> usize
    ensures { Exact (byte_of block.now i) 256 result }
{
    words::wide(words::byte(block, i))
}

// The two-byte number at position i, low byte first.
pub fn word(block: &[u8], i: usize) -> u16
    requires { i < 511 }
    ensures { result ≡ word_of block.now i }
{
    u16::from_le_bytes([words::byte(block, i), words::byte(block, i + 1)])
}

// A byte times its weight.
fn weighed(weight: usize, byte: usize) -> usize
    requires { Weighing weight byte }
    ensures { Exact (weight * byte) 130051 result }
{
    weight * byte
}

// The check that bytes 0 to 509 ask for.
pub fn check(block: &[u8]) -> usize
    ensures { Exact (check_of block.now) 65521 result }
{
    let mut sum = 0;
    for i in 0..510 {
        sum += weighed(i + 1, number(block, i));
    }
    sum % 65521
}
