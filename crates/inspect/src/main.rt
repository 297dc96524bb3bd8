//! Shows what messages say: reads lines `KIND N G HEX`, a message of a group of N sites with signatures of G bytes, and answers each
//! by a line.
#![tactic(auto)]

mod line;
mod show;

use line::answer;
use std::io;
use std::io::{BufRead, BufReader};

fn main(rt: HostRuntime) -> io::Result<()> {
    let heap = rt.alloc();
    for line in BufReader::new(heap, rt.stdin())?.lines(heap) {
        let line = line?;
        rt.println(answer(heap, &line)?)?;
    }
    Ok(())
}
