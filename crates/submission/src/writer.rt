ghost use Rattle.std.specs.Prelude.{IsTrue, ◌↔◌};
ghost use Rattle.std.specs.List.{All};
ghost use Rattle.submission.specs.Words.{Fits};
ghost use Rattle.submission.specs.Writing.{Writes};

use crate::line::Line;
use crate::words::Kind;
use terms::{MOST_LINES, Refusal};

// Whether each line fits its words.
fn all_fit(lines: &[Line]) -> bool
    ensures { IsTrue result ↔ All Fits lines.now }
{
    lines.iter().all(Line::fits)
}

// Writes the lines as words at the front of `out`, and answers how many words these are.
pub fn write(lines: &[Line], out: &mut [u32]) -> Result<usize, Refusal>
    ensures { Writes lines.now out.old out.new result }
{
    if lines.is_empty() || lines.len() > MOST_LINES || !all_fit(lines) {
        return Err(Refusal::Unwritable);
    }
    let end = 8 * lines.len() + 1;
    if out.len() <= end {
        return Err(Refusal::Unwritable);
    }
    out[0] = Kind::Opening.word(lines.len() as u32);
    // By place: no clause of std says what is written through the parts that chunks_exact_mut hands out.
    for (i, line) in lines.iter().enumerate() {
        let at = 8 * i + 1;
        out[at..at + 8].copy_from_slice(&line.words());
    }
    out[end] = Kind::Closing.word(end as u32);
    Ok(end + 1)
}
