// Takes up a stopped run: reads a 32-bit word P, P picks and an image on standard input, and prints the loop that the run gets to, or why there is none.
#![tactic(auto)]

use std::io::{self, Read, Write};

fn main(rt: HostRuntime) -> io::Result<()> {
    let mut input = Vec::new(rt.alloc());
    rt.reader().read_to_end(&mut input)?;
    // No input has more picks than words.
    let mut picks = vec![in rt.alloc(); 0; input.len() / 4]?;
    let mut out = [0; 12288];
    let n = going_on::go_on(&input, &mut picks, &mut out);
    io::writer(&rt).write_all(&out[..n])
}
