// The text that the programs print, laid line by line into a lent slice.
#![tactic(auto)]

mod answers;
mod laying;
mod number;
mod outcome;

pub use answers::{refusal, replay};
pub use laying::word;
pub use number::decimal;
pub use outcome::list;
