use crate::{Line, Reader, write};
use std::test::Fail;
use terms::Refusal;

// One line: holder 0 offers 148,800,000 cents for 200,000 kW from node 0 to node 1 in month 1.
const WORKED: [u32; 10] = [
    0x1000_0001,
    0x2000_0000,
    0x3000_0001,
    0x4000_0011,
    0x5003_0d40,
    0x6000_0000,
    0x78de_8200,
    0x8000_0000,
    0x98de_8200,
    0xf000_0009,
];

const LINE: Line = Line {
    holder: 0,
    injection: 0,
    withdrawal: 1,
    first: 1,
    last: 1,
    power: 200_000,
    offer: 148_800_000,
    charge: 148_800_000,
};

// The place where the form of these words breaks, if they are no submission.
fn broken_at(words: &[u32]) -> Option<usize> {
    Reader::open(words)
        .err()
        .map(|refusal| refusal.fields().place)
}

#[test]
fn the_worked_submission_reads(rt: HostRuntime) -> Result<(), Fail> {
    let mut reader = Reader::open(&WORKED)?;
    assert_eq!(rt; reader.lines_left(), 1);
    let Some(words) = reader.next() else {
        return Err(Fail::new("no line"));
    };
    assert_eq!(rt; words.place(), 2);
    assert_eq!(rt; words.words().len(), 8);
    assert_eq!(rt; words.line(), LINE);
    assert!(rt; reader.next().is_none());
    Ok(())
}

#[test]
fn words_that_stop_early_break_one_past_their_end(rt: HostRuntime) {
    // By length, since each turn reads a longer beginning.
    for n in 0..WORKED.len() {
        assert_eq!(rt; broken_at(&WORKED[..n]), Some(n + 1));
    }
    assert_eq!(rt; broken_at(&WORKED), None);
}

#[test]
fn a_wrong_kind_breaks_at_its_word(rt: HostRuntime) {
    // By index, since each turn changes one word of a copy.
    for n in 0..WORKED.len() {
        let mut words = WORKED;
        words[n] ^= 0xa000_0000;
        assert_eq!(rt; broken_at(&words), Some(n + 1));
    }
}

#[test]
fn counts_and_trailing_words(rt: HostRuntime) {
    let [a, b, c, d, e, f, g, h, i, j] = WORKED;
    assert_eq!(rt; broken_at(&[a, b, c, d, e, f, g, h, i, j, 0]), Some(11));
    assert_eq!(rt; broken_at(&[a, b, c, d, e, f, g, h, i, j + 1]), Some(10));
    assert_eq!(rt; broken_at(&[0x1000_0000, 0xf000_0001]), Some(1));
    assert_eq!(rt; broken_at(&[0x1000_0011]), Some(1));
    assert_eq!(rt; broken_at(&[0x1000_0010]), Some(2));
}

#[test]
fn a_line_is_written(rt: HostRuntime) -> Result<(), Fail> {
    let mut out = [7; 11];
    assert_eq!(rt; write(&[LINE], &mut out)?, 10);
    assert_eq!(rt; &out[..10], WORKED.as_slice());
    assert_eq!(rt; out[10], 7);
    Ok(())
}

#[test]
fn sixteen_lines_are_the_most(rt: HostRuntime) -> Result<(), Fail> {
    let mut out = [0; 130];
    assert_eq!(rt; write(&[LINE; 16], &mut out)?, 130);
    assert_eq!(rt; Reader::open(&out)?.lines_left(), 16);
    assert_eq!(rt; write(&[LINE; 17], &mut out), Err(Refusal::Unwritable));
    assert_eq!(rt; write(&[], &mut out), Err(Refusal::Unwritable));
    Ok(())
}

#[test]
fn fields_and_buffers_have_their_room(rt: HostRuntime) -> Result<(), Fail> {
    let mut out = [0; 10];
    let mut short = [0; 9];
    let late = Line {
        first: 0xff_ffff,
        last: 15,
        ..LINE
    };
    assert_eq!(rt; write(&[late], &mut out)?, 10);
    assert_eq!(rt; write(&[late], &mut short), Err(Refusal::Unwritable));
    let wide = Line { last: 16, ..LINE };
    assert_eq!(rt; write(&[wide], &mut out), Err(Refusal::Unwritable));
    Ok(())
}
