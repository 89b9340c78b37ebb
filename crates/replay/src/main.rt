// Replays stored runs of the two-opt moves: what the original Rust answered is the expected output.
//
// Standard input is a row of cases of little-endian 32-bit words: a kind (0 `two_opt_moves`, 1 `resolve_self_intersections`), the
// count n of points, the count of picks; then x and y of each point, for kind 1 the n entries of the ring, and the picks. Kinds 2 and 3
// are as 0 and 1 with one pick, which is made as often as the count says.
// A case is answered by `ok moves M cross C` and a line `ring A B ..`; or by `refused K`; or by `refused 8 moves M left L`, the ring,
// a line `record A B C D` for each record left, in dense order (the edges A-B and C-D), a line `ages A B ..` of their ages in that order,
// and a line `tangles A B ..` of how many records name each edge of the ring, by position. The last line of an answer with a ring is, for
// up to 24 points (with more the stored file would grow large), `tree A B ..`: least x, least y, greatest x, greatest y of the 2n-1 boxes
// over the edges of the ring by position, a node before its whole first half (k/2 of its k edges, rounded down) and that before its second.
// The original has no ages and no tree: the ages are the definition's; the counts are those of its records, the boxes those of its ring.
// A case that is cut off, of another kind, of more than 4,096 picks, or of one made more than 1,000,001 times is answered by `bad case K`,
// counted from 1, and ends the run. What is answered is written before more input is waited for. Input that cannot be read ends there; a write that fails is no
// error.
#![tactic(auto)]

mod answer;
mod case;
mod solve;

use case::{BODY, is_ahead, next_case};
use solve::Buffers;
use std::io::{self, BufReader, BufWriter, Write};

fn main(rt: HostRuntime) -> io::Result<()> {
    let mut input = BufReader::new(rt.alloc(), rt.reader())?;
    let mut out = BufWriter::new(rt.alloc(), io::writer(&rt))?;
    let mut buffers = Buffers::new(rt.alloc())?;
    let mut body = [0; BODY];
    for number in 1..u64::MAX {
        match next_case(&mut input, &mut body) {
            Ok(Some(case)) => buffers.solve(rt.alloc(), case, &mut out)?,
            Ok(None) => break,
            Err(_) => {
                let _ = writeln!(out, "bad case {number}");
                break;
            }
        }
        if !is_ahead(input.buffer()) {
            let _ = out.flush();
        }
    }
    let _ = out.flush();
    Ok(())
}
