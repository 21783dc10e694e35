// Numbers as text.
ghost use Rattle.lines.specs.Decimal.{decimal as decimal_of};
ghost use Rattle.lines.specs.Laid.{Laid};

use crate::laying::word;

// A number in decimal.
pub fn decimal(text: &mut [u8], at: usize, n: usize) -> usize
    ensures { Laid text.old at (decimal_of n) text.new result }
{
    let mut digits = [0u8; 20];
    let k = io::decimal(n as u64, &mut digits);
    word(text, at, &digits[..k])
}
