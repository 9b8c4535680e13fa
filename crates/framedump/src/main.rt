//! Shows captured frames: one frame a line on standard input, and a line in words for each on standard output.
#![tactic(auto)]

use dump::dump_line;
use forms::without_newline;
use std::io;
use std::io::{BufRead, BufReader};

mod dump;
mod flagged;
mod text;

fn main(rt: HostRuntime) -> io::Result<()> {
    let mut input = BufReader::new(rt.alloc(), rt.stdin())?;
    // One memory for all lines, where `split` takes one for each; and what a line is, `without_newline` says.
    let mut line = Vec::new(rt.alloc());
    for _ in 0..u64::MAX {
        line.clear();
        if input.read_until(b'\n', &mut line)? == 0 {
            break;
        }
        let text = dump_line(rt.alloc(), without_newline(&line))?;
        println!(rt; "{text}")?;
    }
    Ok(())
}
