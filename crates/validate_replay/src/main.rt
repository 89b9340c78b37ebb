// Replays stored rings: what the original Rust's `Polygon::validate` answered is the expected output.
//
// Standard input is a row of cases: a byte, how many bytes a coordinate has, 1 or 4; four little-endian numbers of 16 bits, the count n of points that the call
// names, and how many x, y and ring entries it is lent; then the x, and the y, signed and little-endian, and the ring's entries, of 16 bits each.
// A case is answered by `ok`; or by `15:I-J`, where the edges that start at the positions I and J are the first two that meet; or by the number of another
// refusal. A line has 24 answers. The original tells no pair: the two positions were searched for by scripts/make_validate_replay.py.
// A case that is cut off or has another width is answered by `bad` and ends the run.
#![tactic(auto)]

mod case;

use case::{Case, next_case};
use refusal::Refusal;
use std::alloc::{AllocError, Global};
use std::fmt;
use std::io::{self, BufWriter, Read, Write};
use validate::drawn::validate;

// What is found of a ring.
#[derive(Drop)]
struct Found(Result<(), Refusal>);

impl fmt::Display for Found {
    fn fmt<W: fmt::Write>(&self, f: &mut fmt::Formatter<W>) -> fmt::Result {
        match self.0 {
            Ok(()) => write!(f, "ok"),
            Err(refusal @ Refusal::EdgesMeet { first, second }) => {
                write!(f, "{}:{first}-{second}", refusal.number())
            }
            Err(refusal) => write!(f, "{}", refusal.number()),
        }
    }
}

fn answer(alloc: Global, case: Case<'_>) -> Result<Found, AllocError> {
    let x = case.x(alloc)?;
    let y = case.y(alloc)?;
    let ring = case.ring(alloc)?;
    Ok(Found(validate(case.n, &x, &y, &ring)))
}

// What stands before an answer: a line has 24 of them.
fn before(number: u64) -> &'static str {
    if number == 1 {
        ""
    } else if number % 24 == 1 {
        "\n"
    } else {
        " "
    }
}

fn main(rt: HostRuntime) -> io::Result<()> {
    let mut input = Vec::new(rt.alloc());
    rt.reader().read_to_end(&mut input)?;
    let mut out = BufWriter::new(rt.alloc(), io::writer(&rt))?;
    let mut rest = input.as_slice();
    for number in 1..u64::MAX {
        match next_case(&mut rest) {
            Ok(Some(case)) => write!(out, "{}{}", before(number), answer(rt.alloc(), case)?)?,
            Ok(None) => break,
            Err(_) => {
                write!(out, "{}bad", before(number))?;
                break;
            }
        }
    }
    writeln!(out)?;
    out.flush()
}
