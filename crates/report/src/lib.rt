// The words of an input of bytes, and the answer to it as a line of text.
#![tactic(auto)]

ghost use Rattle.std.specs.Prelude.{◌≡◌, ◌≤◌, true, length, is_ok, IfOk};
ghost use Rattle.report.specs.Answers.{Answered};

use terms::Refusal;

mod input;
mod line;
mod outcome;
mod text;

pub use input::{DECIDING_BYTES, InputWords, judge, read_input, read_submission};
pub use line::write_line;
pub use outcome::{Accepted, WellFormed};
pub use text::{LONGEST_LINE, Text, ToText};

// Judges the bytes of an input and writes the verdict's line at the front of `out`; answers how many bytes that is.
// Of an input longer than `DECIDING_BYTES`, so many of its first bytes are enough.
pub fn answer(bytes: &[u8], out: &mut [u8]) -> Result<usize, Refusal>
    ensures answered { Answered bytes.now out.old out.new result }
    ensures room { 128 ≤ length out.old → is_ok result ≡ true }
    ensures within { IfOk result (λ n. n ≤ length out.new) }
{
    write_line(judge(bytes), out)
}

#[cfg(test)]
mod tests;
