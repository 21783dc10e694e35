// A case: the programs of its processors, what their registers and the memory start with; and the block of 512 bytes that holds it.
#![tactic(auto)]

mod bytes;
mod faults;
mod reading;
mod writing;

ghost use Rattle.std.specs.Prelude.{◌≡◌, length};
ghost use Rattle.cases.specs.Block.{read_of, seal_fault, sealed, write_fault, written};

pub use bytes::number;

// What a local instruction computes.
#[derive(Clone, Copy)]
pub enum Expr {
    Constant(u16),
    Sum(u8, u8),
    Difference(u8, u8),
    Equal(u8, u8),
}

// An instruction, its fields in the order d, a, b, constant.
#[derive(Clone, Copy)]
pub enum Instr {
    Empty,
    Read(u8, u8),
    Write(u8, u8),
    Local(u8, Expr),
    Branch(u8, u16),
    Goto(u16),
    Acquire(u8),
    Release(u8),
}

#[derive(Clone, Copy)]
pub struct Slot {
    pub instr: Instr,
}

// Register k of processor p stands at 8p + k of presets, its instruction i at 12p + i of code.
#[derive(Clone, Copy)]
pub struct Case {
    pub procs: u8,
    pub locs: u8,
    pub counts: [u8; 4],
    pub masks: [u8; 4],
    pub presets: [u16; 32],
    pub memory: [u16; 8],
    pub code: [Slot; 48],
}

// What reading a block answers: the code, its position, whether an accepted block has a usual bound, which is dropped, and the case.
// Numbers and no Result: `read_of` of specs/Block.antt is such a record, and the exports hand its numbers to C.
#[derive(Clone, Copy)]
pub struct CaseRead {
    pub code: u8,
    pub position: usize,
    pub usual: bool,
    pub case: Case,
}

// A code of a block with the lowest position that is bad for it; codes 1 and 2, and 0 where there is none, have position 0.
// Numbers and no Option: `seal_fault` and `write_fault` of specs/Block.antt are such records, and the exports hand them to C.
#[derive(Clone, Copy)]
pub struct Fault {
    pub code: u8,
    pub position: usize,
}

// Reads the case that a block holds. A refused block gives the refused case; it returns by itself, as one of two arms it would be copied once more.
pub fn read_case(block: &[u8]) -> CaseRead
    ensures { result ≡ read_of block.now }
{
    let Fault { code, position } = reading::refusal(block);
    if code != 0 {
        return CaseRead {
            code,
            position,
            usual: false,
            case: reading::nothing(),
        };
    }
    CaseRead {
        code: 0,
        position: 0,
        usual: reading::usual(block),
        case: reading::case_of(block),
    }
}

// Makes a block without usual bound of a buffer that holds one but for its check. Refused, the buffer is all zeros.
pub fn seal(block: &mut [u8]) -> Fault
    ensures { (result ≡ seal_fault block.old) × (block.new ≡ sealed block.old) }
{
    if block.len() != 512 {
        writing::clear(block, 0);
        return Fault {
            code: 1,
            position: 0,
        };
    }
    let fault = faults::judge(block);
    if fault.code != 0 {
        writing::clear(block, 0);
        return fault;
    }
    writing::sign(block);
    fault
}

// Writes the block that holds a case. Refused, the buffer is all zeros.
pub fn write_case(case: Case, block: &mut [u8]) -> Fault
    ensures { (result ≡ write_fault case (length block.old)) × (block.new ≡ written case (length block.old)) }
{
    if block.len() == 512 {
        writing::fill(&case, block);
        seal(block)
    } else {
        writing::clear(block, 0);
        Fault {
            code: 1,
            position: 0,
        }
    }
}
