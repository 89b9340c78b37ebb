// Stops runs, saves their images, and goes on from them; and takes up images that are damaged. scripts/make_stop_replay.py says what is expected.
//
// Standard input is a row of cases of little-endian numbers, a byte before each. 0: a run, two numbers of 16 bits, how many points and how many picks, then the
// points, x and y of 16 bits each, and the picks, of 32. It is answered by one line, which stops.rt tells. 1: what `takeup` reads, behind its length of 16 bits. It is
// answered by what `takeup` prints, and if the run goes on by the line `image LENGTH HASH` of the image saved where it gets to. 2: an image behind its length. It
// is answered by one line, the numbers told when it is taken up with no picks: as it is, then with each of its bits turned in order; `K*N` stands for N times K, 0 for
// a loop. 3: what `save` is lent, nine numbers of 16 bits, the points, the live records, the bytes of room, and how many x, y, ring entries, dense entries, words of
// edges and ages are lent, and then these. It is answered by the number of a refusal, or by the length and the hash of the image.
// A case that is cut off or of another kind is answered by `bad case K`, counted from 1, and ends the run.
#![tactic(auto)]

mod buffers;
mod case;
mod hash;
mod images;
mod stops;

use buffers::Machine;
use case::{Case, next_case};
use images::{write_flips, write_saved, write_text};
use std::io::{self, BufWriter, Read, Write};
use stops::write_stops;

fn main(rt: HostRuntime) -> io::Result<()> {
    let mut input = Vec::new(rt.alloc());
    rt.reader().read_to_end(&mut input)?;
    let mut out = BufWriter::new(rt.alloc(), io::writer(&rt))?;
    let mut machine = Machine::new(rt.alloc())?;
    let mut rest = input.as_slice();
    for number in 1..u64::MAX {
        match next_case(&mut rest) {
            Ok(Some(Case::Run(run))) => write_stops(&mut out, rt.alloc(), &mut machine, run)?,
            Ok(Some(Case::Input(input))) => write_text(&mut out, rt.alloc(), &mut machine, input)?,
            Ok(Some(Case::Image(image))) => write_flips(&mut out, rt.alloc(), &mut machine, image)?,
            Ok(Some(Case::State(state))) => write_saved(&mut out, rt.alloc(), state)?,
            Ok(None) => break,
            Err(_) => {
                writeln!(out, "bad case {number}")?;
                break;
            }
        }
    }
    out.flush()
}
