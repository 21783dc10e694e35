// The rules of the machine: definitions and laws; as code the kinds and the four expressions.
#![tactic(auto)]

ghost use Rattle.std.specs.Prelude.{◌≡◌, ◌+◌, ◌-◌, ◌%◌, ◌<◌, if◌then◌else◌, nat_eq};
ghost use Rattle.rules.specs.Kinds.{kind, evaluate};

use cases::{Expr, Instr};

// The kind of an instruction, as a number and no enum: `kind` of the specs is one.
pub fn kind_of(i: Instr) -> u8
    ensures { (result ≡ kind i) × (result < 8) }
{
    match i {
        Instr::Empty => 0,
        Instr::Read(_, _) => 1,
        Instr::Write(_, _) => 2,
        Instr::Local(_, _) => 3,
        Instr::Branch(_, _) => 4,
        Instr::Goto(_) => 5,
        Instr::Acquire(_) => 6,
        Instr::Release(_) => 7,
    }
}

// x - y, wrapped at 65,536.
fn difference(x: u16, y: u16) -> u16
    ensures { result ≡ (x + (65536 - y)) % 65536 }
{
    x.wrapping_sub(y)
}

// 1 if x equals y, else 0.
fn equal(x: u16, y: u16) -> u16
    ensures { result ≡ (if nat_eq x y then 1 else 0) }
{
    u16::from(x == y)
}

// The value of an expression whose registers hold x and y.
pub fn evaluated(e: Expr, x: u16, y: u16) -> u16
    ensures { result ≡ evaluate e x y }
{
    match e {
        Expr::Constant(n) => n,
        Expr::Sum(_, _) => x.wrapping_add(y),
        Expr::Difference(_, _) => difference(x, y),
        Expr::Equal(_, _) => equal(x, y),
    }
}
