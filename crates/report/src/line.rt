ghost use Rattle.std.specs.Prelude.{◌≡◌, ◌≤◌, length, IfOk};
ghost use Rattle.report.specs.Texts.{line_of, Puts};

use crate::text::{Text, ToText};
use terms::Refusal;

// The line of an answer, with its newline.
fn line<T: ToText + Copy>(answer: Result<T, Refusal>) -> Text
    ensures text { result.bytes ≡ line_of T.text answer }
    ensures room { length result.bytes ≤ 128 }
{
    // By match: each case makes its text.
    let mut text = match answer {
        Ok(accepted) => accepted.to_text(),
        Err(refusal) => refusal.to_text(),
    };
    text.push('\n');
    text
}

// Writes the line of an answer, as a verdict or a reply, at the front of `out`; returns how many bytes it has.
pub fn write_line<T: ToText + Copy>(
    answer: Result<T, Refusal>,
    out: &mut [u8],
) -> Result<usize, Refusal>
    ensures line { Puts (line_of T.text answer) out.old out.new result }
    ensures room { length (line_of T.text answer) ≤ 128 }
    ensures within { IfOk result (λ n. n ≤ length out.new) }
{
    let line = line(answer);
    if out.len() < line.len() {
        return Err(Refusal::Unwritable);
    }
    out[..line.len()].copy_from_slice(line.as_str().as_bytes());
    Ok(line.len())
}
