ghost use Rattle.std.specs.Prelude.{◌≡◌, ◌+◌, ◌^◌, ◌<◌, Decides, MatchResult, slice_index};
ghost use Rattle.submission.specs.Words.{payload as payload_of};
ghost use Rattle.submission.specs.Places.{Stands};
ghost use Rattle.submission.specs.Submissions.{Submission, RefusedForm};

use crate::words::{Kind, PAYLOADS, payload};
use terms::{MOST_LINES, Refusal};

// Whether `word` may stand at the index `at` of a submission of `lines` lines.
fn may_stand(lines: u32, at: usize, word: u32) -> bool
    requires { lines < 2 ^ 28 }
    ensures { Decides result (Stands lines at word) }
{
    let count = payload(word) as usize;
    if at == 0 {
        return Kind::Opening.is_of(word) && (1..=MOST_LINES).contains(&count);
    }
    // Counted from behind the opening word.
    let inner = at - 1;
    let end = 8 * lines as usize;
    if inner < end {
        // The kinds of a line's eight words follow one another, from the holder's on.
        (word / PAYLOADS) as usize == u32::from(Kind::Holder) as usize + inner % 8
    } else {
        inner == end && Kind::Closing.is_of(word) && count == at
    }
}

// The refusal of the word at an index, whose place is counted from 1.
fn broken_at(index: usize) -> Refusal
    requires { index + 1 < 2 ^ 64 }
    ensures { result ≡ Refusal.Form (index + 1) }
{
    Refusal::Form { place: index + 1 }
}

// How many lines the opening word speaks of, 0 where it is missing.
fn line_count(words: &[u32]) -> u32
    ensures value { result ≡ payload_of (slice_index words.now 0) }
    ensures bound { result < 2 ^ 28 }
{
    words.first().map_or(0, |&word| payload(word))
}

// Checks the whole form. A refusal has the place of the first word that breaks it, or one past the end.
pub(crate) fn check_form(words: &[u32]) -> Result<(), Refusal>
    ensures { MatchResult result (λ _. Submission words.now) (λ e. RefusedForm words.now e) }
{
    let lines = line_count(words);
    for (i, &word) in words.iter().enumerate() {
        if !may_stand(lines, i, word) {
            return Err(broken_at(i));
        }
    }
    if words.len() != 8 * lines as usize + 2 {
        return Err(broken_at(words.len()));
    }
    Ok(())
}
