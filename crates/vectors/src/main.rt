//! Answers each line of standard input with a line: the digest that it asks for.
#![tactic(auto)]

use std::io;
use std::io::{BufRead, BufReader};

mod answers;
mod hashes;

fn main(rt: HostRuntime) -> io::Result<()> {
    let heap = rt.alloc();
    for line in BufReader::new(heap, rt.stdin())?.lines(heap) {
        let line = line?;
        rt.println(answers::answer(heap, line.as_str())?)?;
    }
    Ok(())
}
