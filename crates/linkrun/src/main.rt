//! Reads forms from standard input, one a line, and prints an answer to each.
#![tactic(auto)]

use forms::{Session, without_newline};
use std::io;
use std::io::{BufRead, BufReader};

fn main(rt: HostRuntime) -> io::Result<()> {
    let mut input = BufReader::new(rt.alloc(), rt.stdin())?;
    let mut session = Session::new();
    // One memory for all lines, where `split` takes one for each; and what a line is, `without_newline` says.
    let mut line = Vec::new(rt.alloc());
    for _ in 0..u64::MAX {
        line.clear();
        if input.read_until(b'\n', &mut line)? == 0 {
            break;
        }
        let reply = session.answer(without_newline(&line));
        println!(rt; "{reply}")?;
    }
    Ok(())
}
