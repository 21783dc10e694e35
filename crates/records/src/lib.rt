// The outcome buffer: records of 96 bytes in a lent slice, ascending in byte order, each once, and zeros after them.
#![tactic(auto)]

ghost use Rattle.std.specs.Prelude.{◌≡◌, ◌↔◌, true, ◌++◌, ◌+◌, ◌*◌, ◌≤◌, length, take, drop, replicate};
ghost use Rattle.runs.specs.Listing.{below as is_below};
ghost use Rattle.records.specs.Buffer.{record_at, Among, Held};
ghost use Rattle.records.specs.Insertion.{Place, Finding, Standing, Shifting, Insertion};

// How many records the buffer holds, and whether there was no room for a new one: two fields, since `insert` promises them one by one.
#[derive(Clone, Copy)]
pub struct Inserted {
    pub count: usize,
    pub full: bool,
}

// Makes every byte 0.
pub fn clear(out: &mut [u8])
    ensures { out.new ≡ replicate (length out.old) 0 }
{
    out.fill(0);
}

// Whether a is below b in byte order; eight bytes at a time while there are as many.
pub fn below(a: &[u8], b: &[u8]) -> bool
    requires { length a.now ≡ length b.now }
    ensures { result ≡ is_below a.now b.now }
{
    let (mut left, mut right) = (a, b);
    while let (Some((x, xs)), Some((y, ys))) = (
        left.split_first_chunk::<8>(),
        right.split_first_chunk::<8>(),
    ) {
        let x = u64::from_be_bytes(*x);
        let y = u64::from_be_bytes(*y);
        if x != y {
            return x < y;
        }
        left = xs;
        right = ys;
    }
    left < right
}

// Record k.
fn record(out: &[u8], k: usize) -> &[u8]
    requires { 96 * k + 96 ≤ length out.now }
    ensures is { result.now ≡ record_at out.now k }
    ensures long { length result.now ≡ 96 }
{
    &out[96 * k..96 * k + 96]
}

// Whether r is above the last of the n records, if there is one.
fn after_last(out: &[u8], n: usize, r: &[u8]) -> bool
    requires { Finding out.now n r.now }
    ensures { result ≡ true → Place out.now n r.now n }
{
    n == 0 || below(record(out, n - 1), r)
}

// The place of r among the n records: after the last, or found by halving. `partition_point` goes over elements, and a record is 96 of them.
fn find(out: &[u8], n: usize, r: &[u8]) -> usize
    requires { Finding out.now n r.now }
    ensures { Place out.now n r.now result }
{
    if after_last(out, n, r) {
        return n;
    }
    let mut low = 0;
    let mut high = n;
    while low < high {
        let mid = low + (high - low) / 2;
        if below(record(out, mid), r) {
            low = mid + 1;
        } else {
            high = mid;
        }
    }
    low
}

// Whether r is one of the n records, where `at` is its place.
fn there(out: &[u8], n: usize, r: &[u8], at: usize) -> bool
    requires { Standing out.now n r.now at }
    ensures { (result ≡ true) ↔ Among out.now n r.now }
{
    let inside = at < n;
    inside && !below(r, record(out, at))
}

// Writes r over the first bytes.
pub fn write(tail: &mut [u8], r: &[u8])
    requires { length r.now ≤ length tail.old }
    ensures { tail.new ≡ r.now ++ drop (length r.now) tail.old }
{
    tail[..r.len()].copy_from_slice(r);
}

// Puts r before the first `used` bytes, which move up.
fn shift_in(tail: &mut [u8], used: usize, r: &[u8])
    requires { Shifting tail.old used r.now }
    ensures { tail.new ≡ r.now ++ (take used tail.old ++ drop (used + 96) tail.old) }
{
    tail.copy_within(..used, 96);
    write(tail, r);
}

// Puts r at its place among the n records, unless it is there.
pub fn insert(out: &mut [u8], n: usize, r: [u8; 96]) -> Inserted
    requires { Held out.old n }
    ensures { Insertion r out.old n out.new result.count result.full }
{
    let at = find(out, n, &r);
    if there(out, n, &r, at) {
        Inserted {
            count: n,
            full: false,
        }
    } else if out.len() / 96 <= n {
        Inserted {
            count: n,
            full: true,
        }
    } else {
        shift_in(&mut out[96 * at..], 96 * (n - at), &r);
        Inserted {
            count: n + 1,
            full: false,
        }
    }
}
