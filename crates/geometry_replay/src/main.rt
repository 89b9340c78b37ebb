// Replays stored questions of plane geometry: what the original Rust answered is the expected output.
//
// Standard input is a row of cases, each of nine little-endian 32-bit words: a kind and eight coordinates.
//   0: orientation of a, b, c        ax ay bx by cx cy 0 0
//   1: how a1 a2 and b1 b2 meet      ax ay ax ay bx by bx by
//   4: segment a b contains p        ax ay bx by px py 0 0    (5: a is open; 6: b is open; 7: both are)
// The cases are answered 81 to a line: + 0 - for a turn, y or n, and 3 for a refusal; n where two segments do not meet, x where they cross, and an
// overlap as its two ends, each by the first of the four points that stands there: [24) goes from the second, closed, to the fourth, open.
// What is answered is written before more input is waited for. Input that cannot be read ends there; a write that fails is no error.
#![tactic(auto)]

ghost use Rattle.std.specs.Prelude.{◌≤◌, length};

use geometry::line_segment::{EndPoint, ILineSegment, LineSegment, contact};
use geometry::orientation::{Orientation, orient};
use geometry::point::Point;
use refusal::Refusal;
use std::io::{self, BufReader, BufWriter, Read, Write};

// What a case asks of its points: a kind from 4 on tells by its two lowest bits which ends are open, and so does any number that names no kind.
enum Kind {
    Turn,
    Meet,
    Contain { a_open: bool, b_open: bool },
}

impl From<u32> for Kind {
    fn from(word: u32) -> Kind {
        match word {
            0 => Kind::Turn,
            1 => Kind::Meet,
            bits => Kind::Contain {
                a_open: bits % 2 == 1,
                b_open: bits / 2 % 2 == 1,
            },
        }
    }
}

// What is written of a case: a letter, or the ends of an overlap. They are bytes, which are copied: to format each by itself took a third of a run's instructions.
#[derive(Clone, Copy)]
enum Letters {
    One([u8; 1]),
    Ends([u8; 4]),
}

impl Letters {
    fn as_slice(&self) -> &[u8] {
        match self {
            Letters::One(letter) => letter,
            Letters::Ends(letters) => letters,
        }
    }
}

fn point(x: [u8; 4], y: [u8; 4]) -> Point {
    Point {
        x: i32::from_le_bytes(x),
        y: i32::from_le_bytes(y),
    }
}

fn end(open: bool, p: Point) -> EndPoint {
    if open {
        EndPoint::Exclusive(p)
    } else {
        EndPoint::Inclusive(p)
    }
}

fn turn_letter(turn: Result<Orientation, Refusal>) -> u8 {
    match turn {
        Ok(Orientation::CounterClockWise) => b'+',
        Ok(Orientation::ClockWise) => b'-',
        Ok(Orientation::CoLinear) => b'0',
        Err(_) => b'3',
    }
}

fn yes_or_no(holds: Result<bool, Refusal>) -> u8 {
    match holds {
        Ok(true) => b'y',
        Ok(false) => b'n',
        Err(_) => b'3',
    }
}

// The first of the points that stands where p does.
fn place(p: Point, of: [Point; 4]) -> u8 {
    let [a, b, c, d] = of;
    if p == a {
        b'1'
    } else if p == b {
        b'2'
    } else if p == c {
        b'3'
    } else if p == d {
        b'4'
    } else {
        b'?'
    }
}

fn bracket(end: EndPoint, open: u8, closed: u8) -> u8 {
    match end {
        EndPoint::Exclusive(_) => open,
        EndPoint::Inclusive(_) => closed,
    }
}

fn contact_letters(of: [Point; 4]) -> Letters {
    let [a, b, c, d] = of;
    match contact(a, b, c, d) {
        Ok(None) => Letters::One([b'n']),
        Ok(Some(ILineSegment::Crossing)) => Letters::One([b'x']),
        Ok(Some(ILineSegment::Overlap(part))) => Letters::Ends([
            bracket(part.min, b'(', b'['),
            place(part.min.inner(), of),
            place(part.max.inner(), of),
            bracket(part.max, b')', b']'),
        ]),
        Err(_) => Letters::One([b'3']),
    }
}

// The answer to one case.
fn answer(case: [[u8; 4]; 9]) -> Letters {
    let [kind, ax, ay, bx, by, cx, cy, dx, dy] = case;
    let a = point(ax, ay);
    let b = point(bx, by);
    let c = point(cx, cy);
    match Kind::from(u32::from_le_bytes(kind)) {
        Kind::Turn => Letters::One([turn_letter(orient(a, b, c))]),
        Kind::Meet => contact_letters([a, b, c, point(dx, dy)]),
        Kind::Contain { a_open, b_open } => {
            let segment = LineSegment {
                min: end(a_open, a),
                max: end(b_open, b),
            };
            Letters::One([yes_or_no(segment.contains(c))])
        }
    }
}

// The bytes of a line's cases.
const LINE: usize = 2916;

// Reads until `bytes` is full, the input ends or a read fails, and answers how many came.
fn read_full<R: Read>(input: &mut R, bytes: &mut [u8]) -> usize
    ensures { result ≤ length bytes.new }
{
    let mut done = 0;
    for _ in 0..bytes.len() {
        // A full one is not read into: even that would wait for input.
        if done == bytes.len() {
            break;
        }
        match input.read(&mut bytes[done..]) {
            Ok(0) | Err(_) => break,
            Ok(n) => done += n,
        }
    }
    done
}

fn main(rt: HostRuntime) -> io::Result<()> {
    let mut input = BufReader::new(rt.alloc(), rt.reader())?;
    let mut out = BufWriter::new(rt.alloc(), io::writer(&rt))?;
    let mut line = [0; LINE];
    for _ in 0..u64::MAX {
        let n = read_full(&mut input, &mut line);
        let (words, _) = line[..n].as_chunks::<4>();
        let (cases, _) = words.as_chunks::<9>();
        if cases.is_empty() {
            break;
        }
        for case in cases {
            let _ = out.write_all(answer(*case).as_slice());
        }
        let _ = out.write_all(b"\n");
        if input.buffer().len() < LINE {
            let _ = out.flush();
        }
    }
    let _ = out.flush();
    Ok(())
}
