// The words of a line, and the line that they are.
#![tactic(auto)]

mod finding;
mod scan;

pub use finding::find;
pub use scan::parse;
