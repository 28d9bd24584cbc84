// Reads a submission from standard input, proposes it to the worked firm book and writes one line: what the book answers.
#![tactic(auto)]

use demonstration::answer;
use report::{LONGEST_LINE, read_input};
use std::io;
use std::io::Write;

fn main(rt: HostRuntime) -> io::Result<()> {
    let input = read_input(rt.stdin())?;
    let mut line = [0; LONGEST_LINE];
    let len = answer(rt.alloc(), &input, &mut line).map_err(|_| io::Error::other(
        "no memory for the book",
    ))?;
    rt.stdout().write_all(&line[..len])
}
