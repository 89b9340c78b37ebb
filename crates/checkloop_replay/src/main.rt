// Checks many texts as `checkloop` checks one. Standard input is a row of texts with a byte 0 between them. What is wrong with a text, which `checkloop` tells
// on standard error, is printed here too.
#![tactic(auto)]

use drawing::pads::read_pads;
use std::io::{self, BufWriter, Read, Write};

fn main(rt: HostRuntime) -> io::Result<()> {
    let mut input = Vec::new(rt.alloc());
    rt.reader().read_to_end(&mut input)?;
    let mut output = BufWriter::new(rt.alloc(), io::writer(&rt))?;
    let mut out = [0; 54];
    for text in input.split(|b| *b == 0) {
        match read_pads(text) {
            Ok(pads) => {
                let n = drawing::check(&pads.x, &pads.y, &mut out);
                output.write_all(&out[..n])?;
            }
            Err(fault) => writeln!(output, "{fault}")?,
        }
    }
    output.flush()
}
