// Checks a loop that was drawn by hand: its text on standard input, what is found of it on standard output.
//
// A line is `x y`, a pad in micrometres, and the lines go in the order of the loop; or it is blank. `#` starts a comment. What does not fit is told on standard
// error with the line's number, and nothing is printed.
#![tactic(auto)]

use board_text::fault::LONGEST;
use drawing::pads::{Pads, read_pads};
use std::io::{self, Read, Write};

// Writes what is found of the loop.
fn write_check<W: Write>(to: &mut W, pads: &Pads) -> io::Result<()> {
    let mut out = [0; 54];
    let n = drawing::check(&pads.x, &pads.y, &mut out);
    to.write_all(&out[..n])
}

fn main(rt: HostRuntime) -> io::Result<()> {
    let mut text = Vec::new(rt.alloc());
    // One byte more, so that a longer text is seen.
    rt.reader().take(LONGEST + 1).read_to_end(&mut text)?;
    match read_pads(&text) {
        Ok(pads) => write_check(&mut io::writer(&rt), &pads),
        Err(fault) => eprintln!(rt; "checkloop: {fault}"),
    }
}
