ghost use Rattle.std.specs.Prelude.{◌≡◌, ◌-◌, length, take, drop, MatchResult};
ghost use Rattle.std.specs.Iterator.{at_most};
ghost use Rattle.submission.specs.Words.{line_of};
ghost use Rattle.submission.specs.Submissions.{RefusedForm};
ghost use Rattle.submission.specs.Reading.{ahead, Opened, Steps};

use crate::form::check_form;
use crate::line::Line;
use terms::Refusal;

// A line as its eight words, a part of the submission, with the place, from 1, of the first.
#[derive(Clone, Copy)]
pub struct LineWords<'a> {
    words: &'a [u32; 8],
    place: usize,
}

impl<'a> LineWords<'a> {
    // The line that the words stand for.
    pub fn line(&self) -> Line
        ensures { result ≡ line_of self.now.words.now }
    {
        Line::from(*self.words)
    }

    pub fn words(&self) -> &'a [u32]
        ensures { result.now ≡ self.now.words.now }
    {
        let words = self.words;
        words
    }

    pub fn place(&self) -> usize
        ensures { result ≡ self.now.place }
    {
        self.place
    }
}

// The words of a submission, lent by the caller, and the index up to which they are read.
#[derive(Clone, Copy)]
pub struct Reader<'a> {
    words: &'a [u32],
    at: usize,
}

impl<'a> Reader<'a> {
    // Checks the whole form, and stands before the first line.
    pub fn open(words: &'a [u32]) -> Result<Reader<'a>, Refusal>
        ensures { MatchResult result (λ d. Opened words.now d.words.now d.at) (λ e. RefusedForm words.now e) }
    {
        check_form(words)?;
        Ok(Reader { words, at: 1 })
    }

    // How many lines are left.
    pub fn lines_left(&self) -> usize
        ensures { result ≡ length (ahead self.now.words.now self.now.at) }
    {
        self.left().len() / 8
    }

    // The words from here on, up to the closing word.
    fn left(&self) -> &'a [u32]
        ensures words { result.now ≡ take (length self.now.words.now - 1 - self.now.at) (drop self.now.at self.now.words.now) }
        ensures count { length result.now ≡ length self.now.words.now - 1 - self.now.at }
    {
        let closing = self.words.len().saturating_sub(1);
        self.words.get(self.at..closing).unwrap_or(&[])
    }
}

// The lines that are left, one after another.
impl<'a> Iterator for Reader<'a> {
    type Item = LineWords<'a>;

    ghost next_gives = { Steps };

    ghost remaining = { λ reader. at_most (length (ahead reader.words.now reader.at)) };

    fn next(&mut self) -> Option<LineWords<'a>> {
        let words = self.left().first_chunk()?;
        let place = self.at + 1;
        self.at += 8;
        Some(LineWords { words, place })
    }
}
