// A case in the making, line by line.
#![tactic(auto)]

mod state;

use cases::Slot;
pub use state::{nothing, onward};

// A case in the making: the first place that may still be filled, and the highest that a label of the open processor names.
#[derive(Clone, Copy)]
pub struct Sheet {
    pub procs: u8,
    pub locs: u8,
    pub dropped: u8,
    pub next: usize,
    pub need: usize,
    pub counts: [u8; 4],
    pub masks: [u8; 4],
    pub presets: [u16; 32],
    pub memory: [u16; 8],
    pub code: [Slot; 48],
}
