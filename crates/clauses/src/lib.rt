// Clauses over an outcome. The caller owns a short list of records and lends it. `holds` does the work on one clause;
// `meets` reads the lent slice, one clause after the other.
#![tactic(auto)]

ghost use Rattle.std.specs.Prelude.{◌≡◌, ℕ, ◌+◌, ◌*◌, ◌<◌, ◌≤◌, ◌&&◌, eqb, length, take};
ghost use Rattle.clauses.specs.Wanted.{Named, AllNamed, holds_in, meets_all, Askable, wanted, no_clauses, with_clause};

#[repr(C)]
#[derive(Clone, Copy)]
pub struct Clause {
    pub processor: u8,
    pub register: u8,
    pub defined: bool,
    pub value: u16,
}

// Whether the register's two bytes say v.
fn spells(high: u8, low: u8, v: u16) -> bool
    ensures { result ≡ eqb (256 * high + low) v }
{
    u16::from_be_bytes([high, low]) == v
}

// Whether one clause holds of an outcome.
fn holds(c: &Clause, outcome: &[u8]) -> bool
    requires { (length outcome.now ≡ 96) × Named c.now }
    ensures { result ≡ holds_in c.now outcome.now }
{
    let at = 24 * (c.processor as usize) + 3 * (c.register as usize);
    if c.defined {
        outcome[at] == 1 && spells(outcome[at + 1], outcome[at + 2], c.value)
    } else {
        outcome[at] == 0
    }
}

// Whether every clause of the lent slice holds of the outcome.
fn meets(clauses: &[Clause], outcome: &[u8]) -> bool
    requires { (length outcome.now ≡ 96) × AllNamed clauses.now }
    ensures { result ≡ meets_all clauses.now outcome.now }
{
    for c in clauses {
        if !holds(c, outcome) {
            return false;
        }
    }
    true
}

// Up to 8 clauses by value, as a search holds them.
#[derive(Clone, Copy)]
pub struct Asked {
    pub clauses: [Clause; 8],
    pub count: usize,
}

// The same of clauses that are held in one record: it lends those that count.
pub fn asked_meets(a: Asked, outcome: &[u8]) -> bool
    requires { (length outcome.now ≡ 96) × Askable a }
    ensures { result ≡ wanted a outcome.now }
{
    meets(&a.clauses[..a.count], outcome)
}

// One clause more; those past the eighth are only counted.
#[tactic(auto, using(std::proofs::lemmas::Bool::Decides::nat_tests))]
pub fn with_clause(a: Asked, c: Clause) -> Asked
    requires { a.count < 4611686018427387904 }
    ensures { result ≡ with_clause a c }
{
    let mut b = a;
    b.count = a.count + 1;
    if a.count < 8 {
        b.clauses[a.count] = c;
    }
    b
}

pub fn no_clauses() -> Asked
    ensures { result ≡ no_clauses }
{
    let c = Clause {
        processor: 0,
        register: 0,
        defined: false,
        value: 0,
    };
    Asked {
        clauses: [c; 8],
        count: 0,
    }
}
