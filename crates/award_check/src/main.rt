// Reads a submission from standard input and writes one line: whether it is well-formed.
#![tactic(auto)]

use report::{LONGEST_LINE, answer, read_input};
use std::io;
use std::io::Write;

fn main(rt: HostRuntime) -> io::Result<()> {
    let input = read_input(rt.stdin())?;
    let mut line = [0; LONGEST_LINE];
    let len = answer(&input, &mut line).unwrap();
    rt.stdout().write_all(&line[..len])
}
