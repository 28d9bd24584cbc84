ghost use Rattle.std.specs.Prelude.{◌≡◌, length};
ghost use Rattle.terms.specs.Tables.{held};
ghost use Rattle.submission.specs.Submissions.{decode};

use crate::outcome::WellFormed;
use terms::{MOST_LINES, Table};

mod read;

pub use read::{judge, read_input, read_submission};

// The words of the longest submission: an opening and a closing word, and eight for each line.
const MOST_WORDS: usize = 8 * MOST_LINES + 2;
// So many bytes decide: an input that has more than 130 whole words is no submission.
pub const DECIDING_BYTES: usize = 4 * MOST_WORDS + 1;

// The words of a submission, and its form.
#[derive(Clone, Copy)]
pub struct InputWords {
    words: Table<u32, MOST_WORDS>,
    form: WellFormed,
    ghost counted: { form.lines ≡ length (decode (held words)) },
}
