ghost use Rattle.std.specs.Prelude.{None};

use crate::{Accepted, LONGEST_LINE, answer, read_input, read_submission, write_line};
use std::io;
use std::io::{ErrorKind, Read};
use std::test::Fail;
use terms::Refusal;

// The worked submission: one line.
const WORKED: &[u8] =
    b"\x10\x00\x00\x01\x20\x00\x00\x00\x30\x00\x00\x01\x40\x00\x00\x11\x50\x03\x0d\x40\x60\x00\x00\x00\x78\xde\x82\x00\x80\x00\x00\x00\x98\xde\x82\x00\xf0\x00\x00\x09";

// Whether the input is answered by this line.
fn answers(input: &[u8], line: &[u8]) -> bool {
    let mut out = [0; LONGEST_LINE];
    answer(input, &mut out) == Ok(line.len()) && out.starts_with(line)
}

#[test]
fn inputs_and_their_lines(rt: HostRuntime) {
    assert!(rt; answers(WORKED, b"well-formed 1\n"));
    assert!(rt; answers(b"", b"refused 5 1 0 0 0\n"));
    assert!(rt; answers(b"\x10", b"refused 5 1 0 0 0\n"));
    assert!(rt; answers(b"\x10\x00\x00\x01\x20", b"refused 5 2 0 0 0\n"));
    assert!(rt;
        answers(
            b"\x10\x00\x00\x01\x30\x00\x00\x00\x20",
            b"refused 5 2 0 0 0\n",
        )
    );
}

const WORKED_WORDS: &[u32] = &[
    0x10000001, 0x20000000, 0x30000001, 0x40000011, 0x50030d40, 0x60000000, 0x78de8200, 0x80000000,
    0x98de8200, 0xf0000009,
];

// Whether the reply's line is this one.
fn says(reply: Result<Accepted, Refusal>, line: &[u8]) -> bool {
    let mut out = [0; LONGEST_LINE];
    write_line(reply, &mut out) == Ok(line.len()) && out.starts_with(line)
}

#[test]
fn replies_and_their_lines(rt: HostRuntime) {
    assert!(rt; says(Ok(Accepted { first: 1, lines: 1 }), b"accepted 1 1\n"));
    assert!(rt;
        says(
            Ok(Accepted {
                first: 4294967295,
                lines: 16,
            }),
            b"accepted 4294967295 16\n",
        )
    );
    assert!(rt;
        says(
            Err(Refusal::BelowFloor { place: 1 }),
            b"refused 9 1 0 0 0\n",
        )
    );
    assert!(rt;
        says(
            Err(Refusal::LimitPassed {
                month: 12,
                limit: 4294967295,
                excess: 18446744073709551615,
            }),
            b"refused 13 0 12 4294967295 18446744073709551615\n",
        )
    );
}

// Whether the bytes break the form at this place.
fn breaks(bytes: &[u8], place: usize) -> bool {
    read_submission(bytes).is_err_and(|refusal| refusal == Refusal::Form { place })
}

#[test]
fn inputs_and_their_words(rt: HostRuntime) -> Result<(), Fail> {
    assert!(rt; read_submission(WORKED)?.as_slice() == WORKED_WORDS);
    assert!(rt; breaks(b"", 1));
    assert!(rt; breaks(b"\x10", 1));
    assert!(rt; breaks(b"\x10\x00\x00\x01\x20", 2));
    assert!(rt; breaks(b"\x10\x00\x00\x01\x30\x00\x00\x00\x20", 2));
    assert!(rt; breaks(&[0x10; 521], 1));
    Ok(())
}

#[test]
fn inputs_up_to_the_bytes_that_decide(rt: HostRuntime) -> Result<(), Fail> {
    assert!(rt; read_input(WORKED)?.as_slice() == WORKED);
    assert!(rt; read_input(&[0x10; 522][..])?.as_slice() == &[0x10; 521][..]);
    Ok(())
}

// A reader that is interrupted once, and then at its end.
#[derive(Drop)]
struct Interrupted {
    yet: bool,
}

impl Read for Interrupted {
    ghost remaining = { λ _. None };

    fn read(&mut self, _buffer: &mut [u8]) -> io::Result<usize> {
        if self.yet {
            return Ok(0);
        }
        self.yet = true;
        Err(io::Error::from(ErrorKind::Interrupted))
    }
}

#[test]
fn an_interrupted_read_fails(rt: HostRuntime) {
    let read = read_input(Interrupted { yet: false });
    assert!(rt; read.is_err_and(|error| error.kind() == ErrorKind::Interrupted));
}
