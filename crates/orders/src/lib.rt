// One order over all items, as rows of sets.
#![tactic(auto)]

ghost use Rattle.std.specs.Prelude.{◌≡◌, Bool, ◌&&◌, not, ℕ, ◌+◌, ◌≤◌, ◌<◌, eqb, ltb, length};
ghost use Rattle.words.specs.Sets.{has as in_set};
ghost use Rattle.rules.specs.Order.{up_to};
ghost use Rattle.orders.specs.Least.{Least};
ghost use Rattle.orders.specs.Rows.{order_of, joined_row, SetOf, Reaches, JoinedTo, Joining, Joined};

// Whether item a stands before item b.
pub fn before(rows: &[u64; 56], a: usize, b: usize) -> bool
    ensures { result ≡ order_of rows.now a b }
{
    b < 56 && words::has(rows[b], a)
}

// Item e and what stands before it; past the last row nothing.
fn up_to(rows: &[u64; 56], e: usize) -> u64
    ensures { (a : ℕ) → in_set result a ≡ (ltb e 56 && up_to (order_of rows.now) a e) }
{
    if e < 56 { words::one(e) | rows[e] } else { 0 }
}

// Row b once the mask is put before item i.
fn joined_row(row: u64, b: usize, i: usize, mask: u64) -> u64
    ensures { result ≡ joined_row row b i mask }
{
    if b == i || words::has(row, i) {
        row | mask
    } else {
        row
    }
}

// Puts the mask before item i and before every item after it.
fn spread(rows: &mut [u64; 56], i: usize, mask: u64)
    requires { length rows.old ≡ 56 }
    ensures { (length rows.new ≡ 56) × JoinedTo rows.old rows.new i mask 56 }
{
    for b in 0..56 {
        rows[b] = joined_row(rows[b], b, i, mask);
    }
}

// The set of numbers below n, with n where the test passes.
pub fn with(x: u64, n: usize, test: bool) -> u64
    requires { n < 64 }
    ensures { (P : ℕ → Bool) → SetOf n P x → test ≡ P n → SetOf (n + 1) P result }
{
    if test { words::one(n) | x } else { x }
}

// The set x without what it has in common with y.
pub fn minus(x: u64, y: u64) -> u64
    ensures { (a : ℕ) → in_set result a ≡ (in_set x a && not (in_set y a)) }
{
    x ^ (x & y)
}

// The least number of a set, or 64.
pub fn lowest(x: u64) -> usize
    ensures { Least x result }
{
    x.trailing_zeros() as usize
}

// A set without its least number.
pub fn others(x: u64) -> u64
    requires { 0 < x }
    ensures { (result < x) × ((e : ℕ) → Least x e → (a : ℕ) → in_set result a ≡ (in_set x a && not (eqb a e))) }
{
    x & (x - 1)
}

// The items of a set, all below n, and what stands before one of them.
fn reach(rows: &[u64; 56], items: u64, n: usize) -> u64
    requires { n ≤ 56 }
    ensures { (P : ℕ → Bool) → SetOf n P items → Reaches (order_of rows.now) n P result }
{
    let mut mask = 0;
    let mut rest = items;
    while 0 < rest {
        mask |= up_to(rows, lowest(rest));
        rest = others(rest);
    }
    mask
}

// Puts item i after the items of a set, all below n, and closes the order.
pub fn join(rows: &mut [u64; 56], i: usize, items: u64, n: usize)
    requires { Joining rows.old i n }
    ensures { Joined rows.old rows.new i items n }
{
    let mask = reach(rows, items, n);
    spread(rows, i, mask);
}
