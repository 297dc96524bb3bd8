//! Compares saved versions: reads lines `SIZE HEX SIZE HEX`, two versions with their group sizes, and answers each by a line.
#![tactic(auto)]

mod answer;
mod check;

use answer::answer_to;
use std::io;
use std::io::{BufRead, BufReader};

fn main(rt: HostRuntime) -> io::Result<()> {
    for line in BufReader::new(rt.alloc(), rt.stdin())?.lines(rt.alloc()) {
        let line = line?;
        match answer_to(rt.alloc(), &line)? {
            Ok(order) => println!(rt; "{order}")?,
            Err(failure) => println!(rt; "{failure}")?,
        }
    }
    Ok(())
}
