// The words of a submission: lines of firm rights as an optimiser proposes them, read and written.
#![tactic(auto)]

mod form;
mod line;
mod reader;
mod words;
mod writer;

pub use line::Line;
pub use reader::{LineWords, Reader};
pub use writer::write;

#[cfg(test)]
mod tests;
