// Reads stored rings; where each is wrong is the expected output.
//
// Standard input is a row of rings, each of five bytes: how many entries it has, at most 4, and four entries, of which the first so many count.
// Each ring is answered by a line: the position of the first entry that is no point's number or names a point again, or `none`.
// A ring of more than 4 entries or one that is cut off ends the run. What is answered is written before more input is waited for. Input that
// cannot be read ends there; a write that fails is no error.
#![tactic(auto)]

use polygon::polygon::first_fault;
use polygon::position::PositionId;
use std::fmt;
use std::io::{self, BufReader, BufWriter, Read, Write};

// Where a ring is wrong.
#[derive(Drop)]
struct Fault(Option<PositionId>);

impl fmt::Display for Fault {
    fn fmt<W: fmt::Write>(&self, f: &mut fmt::Formatter<W>) -> fmt::Result {
        match self.0 {
            Some(position) => write!(f, "{}", position.0),
            None => write!(f, "none"),
        }
    }
}

fn main(rt: HostRuntime) -> io::Result<()> {
    let mut input = BufReader::new(rt.alloc(), rt.reader())?;
    let mut out = BufWriter::new(rt.alloc(), io::writer(&rt))?;
    let mut case = [0; 5];
    for _ in 0..u64::MAX {
        if input.read_exact(&mut case).is_err() {
            break;
        }
        let [count, a, b, c, d] = case;
        let n = count as usize;
        if 4 < n {
            break;
        }
        let ring = [a as u16, b as u16, c as u16, d as u16];
        let _ = writeln!(out, "{}", Fault(first_fault(&ring[..n])));
        if input.buffer().len() < 5 {
            let _ = out.flush();
        }
    }
    let _ = out.flush();
    Ok(())
}
