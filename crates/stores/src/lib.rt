// The stores of a board, in one log: all buffers of all kinds stand in it, each store with its processor, in the order in which they were run.
#![tactic(auto)]

ghost use Rattle.std.specs.Prelude.{◌≡◌, ℕ, ◌+◌, ◌*◌, ◌≤◌, ◌<◌, length, IfSome, unwrap_or};
ghost use Rattle.words.specs.Small.{some_below};
ghost use Rattle.words.specs.Sets.{has as in_set};
ghost use Rattle.machine.specs.Shown.{shown_value};
ghost use Rattle.boards.specs.Board.{filled, newest_to};
ghost use Rattle.stores.specs.Log.{sits_in, buffer_of, slot_by, Waits, Oldest};
ghost use Rattle.stores.specs.Given.{Holding};

use boards::Buffering;

// A store: its processor, its location and value, and whether it waits in a buffer still.
#[derive(Clone, Copy)]
pub struct Logged {
    pub proc: u8,
    pub loc: u8,
    pub value: u16,
    pub waits: bool,
}

// The number of the buffer that a store to location l enters.
pub fn buffer_of(k: Buffering, l: usize) -> Option<usize>
    ensures { result ≡ slot_by k l }
{
    match k {
        Buffering::Direct => None,
        Buffering::Shared => Some(0),
        Buffering::Split => Some(l),
    }
}

// Whether a store waits in buffer b of processor p.
fn sits(k: Buffering, x: &Logged, p: usize, b: usize) -> bool
    ensures { result ≡ sits_in k p b x.now }
{
    x.waits && x.proc as usize == p && buffer_of(k, x.loc as usize) == Some(b)
}

// The buffer that a store waits in, alone: buffer b of processor p is 8p + b.
fn home(k: Buffering, x: &Logged) -> u64
    ensures { (p b : ℕ) → p < 4 → b < 8 → in_set result (8 * p + b) ≡ sits_in k p b x.now }
{
    match buffer_of(k, x.loc as usize) {
        Some(b) if x.waits && x.proc < 4 && b < 8 => words::one(8 * x.proc as usize + b),
        _ => 0,
    }
}

// The buffers that hold a store.
pub fn waiting(k: Buffering, log: &[Logged]) -> u64
    ensures { Waits k log.now (length log.now) result }
{
    let mut found = 0;
    for x in log {
        found |= home(k, x);
    }
    found
}

// Whether a buffer of processor p holds a store.
pub fn holding(k: Buffering, log: &[Logged], locs: u8, p: usize) -> bool
    requires { Holding locs p }
    ensures { result ≡ some_below locs (λ b. filled (buffer_of k log.now (length log.now) p b)) }
{
    let waits = waiting(k, log);
    (0..locs as usize).any(|b| words::has(waits, 8 * p + b))
}

// The newest store to location l in buffer b of processor p.
pub fn newest(k: Buffering, log: &[Logged], p: usize, b: usize, l: usize) -> Option<u16>
    ensures { shown_value result ≡ newest_to l (buffer_of k log.now (length log.now) p b) }
{
    let mut v = None;
    for x in log {
        if sits(k, x, p, b) & (x.loc as usize == l) {
            v = Some(x.value);
        }
    }
    v
}

// The oldest store of buffer b of processor p.
pub fn oldest(k: Buffering, log: &[Logged], p: usize, b: usize) -> Option<usize>
    ensures oldest { Oldest k log.now (length log.now) p b (unwrap_or result (length log.now)) }
    ensures inside { IfSome result (λ j. j < length log.now) }
{
    log.iter().position(|x| sits(k, x, p, b))
}
