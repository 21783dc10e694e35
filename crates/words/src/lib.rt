// Sets of numbers below 64, one bit a number; bytes as numbers.
#![tactic(auto)]

ghost use Rattle.std.specs.Prelude.{◌≡◌, ◌^◌, ◌<◌, get_or};
ghost use Rattle.words.specs.Sets.{has as in_set};
ghost use Rattle.words.specs.Numbers.{Exact};

// The set of k alone.
pub fn one(k: usize) -> u64
    requires { k < 64 }
    ensures { result ≡ 2 ^ k }
{
    1 << k
}

// Whether k is in the set x.
pub fn has(x: u64, k: usize) -> bool
    ensures { result ≡ in_set x k }
{
    k < 64 && (x >> k) % 2 == 1
}

// A byte as an index.
pub fn wide(x: u8) -> usize
    ensures { (result ≡ x) × (result < 256) }
{
    x as usize
}

// The byte at position i, 0 past the end.
pub fn byte(bytes: &[u8], i: usize) -> u8
    ensures { Exact (get_or bytes.now i 0) 256 result }
{
    bytes.get(i).copied().unwrap_or(0)
}
