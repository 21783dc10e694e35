// Store-buffer machines over the same cases: definitions and laws, and the name of a machine.
#![tactic(auto)]

// Where a store waits before it reaches memory: nowhere (SC), in its processor's buffer (TSO), in its processor's buffer for its location (PSO).
#[derive(Clone, Copy)]
pub enum Buffering {
    Direct,
    Shared,
    Split,
}
