ghost use Rattle.std.specs.Prelude.{◌≡◌, take, IfSome, IfOk};
ghost use Rattle.report.specs.Inputs.{whole_words, WordsJudged, Judged, Decided};
ghost use Rattle.report.specs.Readings.{words_in, FrontOf, ReadAs, ReadDecided};

use super::{DECIDING_BYTES, InputWords, MOST_WORDS};
use crate::outcome::WellFormed;
use arrayvec::ArrayVec;
use std::io;
use std::io::Read;
use submission::Reader;
use terms::{Refusal, Table};

impl InputWords {
    pub fn as_slice(&self) -> &[u32]
        ensures { result.now ≡ words_in self.now }
    {
        self.words.as_slice()
    }
}

// The bytes of an input that decide: all, or the first `DECIDING_BYTES`. A read that fails, an interrupted one too, ends it.
pub fn read_input<R: Read + Drop>(input: R) -> io::Result<ArrayVec<u8, DECIDING_BYTES>>
    ensures { IfOk result (λ bytes. IfSome (R.remaining input) (λ all. bytes.items ≡ take DECIDING_BYTES all)) }
{
    let mut input = input;
    let mut bytes = ArrayVec::new();
    let mut part = [0; DECIDING_BYTES];
    // By `read`, since `io::copy` tries an interrupted read again.
    while !bytes.is_full() {
        let count = input.read(&mut part[..bytes.remaining_capacity()])?;
        if count == 0 {
            break;
        }
        bytes.try_extend_from_slice(&part[..count]).unwrap();
    }
    Ok(bytes)
}

// The words of a submission, four bytes each, the highest first. A last word of fewer than four bytes breaks the form,
// unless an earlier word does. Of an input longer than `DECIDING_BYTES`, so many of its first bytes are enough.
pub fn read_submission(bytes: &[u8]) -> Result<InputWords, Refusal>
    ensures read { ReadAs bytes.now result }
    ensures decided { ReadDecided bytes.now result }
{
    let words = front(bytes);
    let form = form_in(bytes, words.as_slice())?;
    Ok(InputWords { words, form })
}

// The form of a submission, which `read_submission` reads.
pub fn judge(bytes: &[u8]) -> Result<WellFormed, Refusal>
    ensures judged { Judged bytes.now result }
    ensures decided { Decided bytes.now result }
{
    form_in(bytes, read_words(bytes, &mut [0; MOST_WORDS]))
}

// The whole words at the front of the bytes, as many as the longest submission has.
fn front(bytes: &[u8]) -> Table<u32, MOST_WORDS>
    ensures { FrontOf bytes.now result }
{
    let mut words = Table::new(0);
    for &word in read_words(bytes, &mut [0; MOST_WORDS]) {
        words.push(word).unwrap();
    }
    words
}

// The same in an array, which is filled faster: each push of a table counts.
fn read_words<'a>(bytes: &[u8], words: &'a mut [u32; MOST_WORDS]) -> &'a [u32]
    ensures { result.now ≡ take 130 (whole_words bytes.now) }
{
    let (fours, _) = bytes.as_chunks();
    let count = MOST_WORDS.min(fours.len());
    // By index, since a word stands where its four bytes do.
    for i in 0..count {
        words[i] = u32::from_be_bytes(fours[i]);
    }
    &words[..count]
}

// The form of the bytes, at whose front these whole words stand.
fn form_in(bytes: &[u8], words: &[u32]) -> Result<WellFormed, Refusal>
    requires { words.now ≡ take 130 (whole_words bytes.now) }
    ensures judged { Judged bytes.now result }
    ensures decided { Decided bytes.now result }
{
    let form = form_of(words)?;
    if bytes.len() > 4 * words.len() {
        return Err(Refusal::Form {
            place: words.len() + 1,
        });
    }
    Ok(form)
}

// The form of whole words.
fn form_of(words: &[u32]) -> Result<WellFormed, Refusal>
    ensures { WordsJudged words.now result }
{
    Reader::open(words).map(|reader| WellFormed {
        lines: reader.lines_left(),
    })
}
