// A loop that was drawn by hand: from its text to its pads, and from these to what is printed of it.
#![tactic(auto)]

pub mod fault;
pub mod pads;

ghost use Rattle.std.specs.Prelude.{◌≡◌, ◌<◌, ◌≤◌, ◌++◌, map, length, drop};
ghost use Rattle.geometry.specs.Lent.{points};
ghost use Rattle.geometry.specs.Spots.{spots};
ghost use Rattle.index_edge.specs.Number.{edge_of};
ghost use Rattle.polygon.specs.Ring.{IsRing};
ghost use Rattle.intersection_set.specs.Within.{Proper};
ghost use Rattle.machine.specs.Board.{Distinct, kind_edges};
ghost use Rattle.job.specs.Buffers.{Put};
ghost use Rattle.job.specs.Steps.{steps};
ghost use Rattle.job.specs.Writing.{Wrote, HasRoom};
ghost use Rattle.validate.specs.Drawn.{meeting, validated};
ghost use Rattle.drawing.specs.Printed.{passed_line, is_overlap, verb, contact_line, told, printed};

use geometry::lent::Points;
use geometry::line_segment::ContactKind;
use index_edge::IndexEdge;
use job::feed::Loop;
use job::reader::{fill, step_of};
use job::report::{put_edge_name, put_line};
use job::writer::Writer;
use polygon::position::{Position, PositionId};
use refusal::Refusal;
use sweeps::edges::edge_at;
use sweeps::pair::Pair;
use sweeps::segment::Segment;
use validate::drawn::validate;

// The line `ok N feed F`.
#[tactic(auto, using(job::proofs::Decimals::length_decimal))]
fn put_passed(w: &mut Writer, n: u64, feed: u64)
    requires { HasRoom w.old 50 }
    ensures { Wrote w.old w.new (passed_line n feed) }
{
    w.field(b"ok ", n);
    w.field(b" feed ", feed);
    w.text(b"\n");
}

// Two edges that meet do so along a part, not in one place.
fn overlap(points: Points<'_>, e: IndexEdge, f: IndexEdge) -> bool
    requires { Distinct points.n (spots points) × Proper points.n (edge_of e) × Proper points.n (edge_of f) }
    ensures { result ≡ is_overlap (kind_edges (spots points.entry) (edge_of e) (edge_of f)) }
{
    let a = Segment::new(points, e);
    let from = a.see(f.min);
    let to = a.see(f.max);
    matches!(Pair { a, from, to }.intersect(), Some(ContactKind::Overlap))
}

fn put_verb(w: &mut Writer, overlap: bool)
    requires { HasRoom w.old 10 }
    ensures text { Wrote w.old w.new (verb overlap) }
    ensures short { length (verb overlap) ≤ 10 }
{
    if overlap {
        w.text(b" overlaps ");
    } else {
        w.text(b" crosses ");
    }
}

// The line of two edges that meet.
fn put_contact(w: &mut Writer, points: Points<'_>, e: IndexEdge, f: IndexEdge)
    requires room { HasRoom w.old 43 }
    requires edges { Distinct points.n (spots points) × Proper points.n (edge_of e) × Proper points.n (edge_of f) }
    ensures text { Wrote w.old w.new (contact_line (edge_of e) (kind_edges (spots points.entry) (edge_of e) (edge_of f)) (edge_of f)) }
    ensures short { length (contact_line (edge_of e) (kind_edges (spots points.entry) (edge_of e) (edge_of f)) (edge_of f)) ≤ 43 }
{
    put_edge_name(w, e);
    put_verb(w, overlap(points, e, f));
    put_edge_name(w, f);
    w.text(b"\n");
}

// The lines of a loop that is refused since the edges at two of its positions meet.
fn put_meeting(w: &mut Writer, points: Points<'_>, ring: &[u16], first: usize, second: usize)
    requires room { HasRoom w.old 54 }
    requires ring { IsRing points.n ring.now × Distinct points.n (spots points) × (3 ≤ points.n) × (first < points.n) × (second < points.n) }
    ensures text { Wrote w.old w.new (told points.entry.n (spots points.entry) ring.now (meeting first second)) }
    ensures short { length (told points.entry.n (spots points.entry) ring.now (meeting first second)) ≤ 54 }
{
    let size = points.size();
    let first = Position {
        id: PositionId(first as u16),
        size,
    };
    let second = Position {
        id: PositionId(second as u16),
        size,
    };
    put_line(w, b"refused ", 15);
    put_contact(w, points, edge_at(ring, first), edge_at(ring, second));
}

// The text of what is found of the loop that the ring names.
fn put_found(w: &mut Writer, x: &[i32], y: &[i32], ring: &[u16])
    requires { HasRoom w.old 54 }
    ensures text { let n = length ring.now in Wrote w.old w.new (told n (points x.now y.now) ring.now (validated n x.now y.now ring.now)) }
    ensures short { let n = length ring.now in length (told n (points x.now y.now) ring.now (validated n x.now y.now ring.now)) ≤ 54 }
{
    let n = ring.len();
    match validate(n, x, y, ring) {
        Ok(()) => put_passed(w, n as u64, Loop { x, y, ring }.feed()),
        Err(Refusal::EdgesMeet { first, second }) => {
            put_meeting(w, Points { n, x, y }, ring, first, second);
        }
        Err(refusal) => put_line(w, b"refused ", refusal.number() as u64),
    }
}

// A coordinate in steps.
fn in_steps(v: i32) -> i32
    ensures { result ≡ steps v }
{
    step_of(v.cast_unsigned())
}

// The coordinates in steps, at the start of `out`.
fn round(coordinates: &[i32], out: &mut [i32])
    requires { length coordinates.now ≤ length out.old }
    ensures { out.new ≡ map steps coordinates.now ++ drop (length coordinates.now) out.old }
{
    fill(out, coordinates.len(), |i| in_steps(coordinates[i]));
}

// What is printed of the loop through pads at x and y, in micrometres, in their own order. Steps and ring go into arrays, since a library uses no heap.
fn put_loop(w: &mut Writer, x: &[i32], y: &[i32])
    requires { (length y.now ≡ length x.now) × HasRoom w.old 54 }
    ensures text { Wrote w.old w.new (printed x.now y.now) }
    ensures short { length (printed x.now y.now) ≤ 54 }
{
    let n = x.len();
    if 256 < n {
        put_line(w, b"refused ", Refusal::ManyPoints.number() as u64);
        return;
    }
    let mut steps_x = [0i32; 256];
    let mut steps_y = [0i32; 256];
    let mut ring = [0u16; 256];
    round(x, &mut steps_x);
    round(y, &mut steps_y);
    fill(&mut ring, n, |i| i as u16);
    put_found(w, &steps_x[..n], &steps_y[..n], &ring[..n]);
}

// Writes it to the start of `out`, and answers its length. 54 bytes hold the longest text, that of two edges that meet.
pub fn check(x: &[i32], y: &[i32], out: &mut [u8]) -> usize
    requires { (length y.now ≡ length x.now) × (54 ≤ length out.old) }
    ensures put { Put out.old 0 (printed x.now y.now) result out.new }
    ensures within { result ≤ length out.new }
{
    let mut w = Writer::new(out);
    put_loop(&mut w, x, y);
    w.at()
}
