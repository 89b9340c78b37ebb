// The text of an answer.
ghost use Rattle.std.specs.Prelude.{◌≡◌, ◌++◌, ◌+◌, ◌*◌, ◌≤◌, length};
ghost use Rattle.geometry.specs.Lent.{spot};
ghost use Rattle.index_edge.specs.Number.{edge_of};
ghost use Rattle.polygon.specs.Edges.{edge_sum};
ghost use Rattle.job.specs.Ascii.{ascii};
ghost use Rattle.job.specs.Buffers.{Put};
ghost use Rattle.job.specs.Decimal.{decimal};
ghost use Rattle.job.specs.Loops.{spots};
ghost use Rattle.job.specs.Tallies.{tally};
ghost use Rattle.job.specs.Text.{summary, point_line, point_lines, edge_name, edge_line, edge_lines, stopped_lines, report_text, positions};
ghost use Rattle.job.specs.Writing.{Wrote, HasRoom};

use super::feed::Loop;
use super::tangled::Tangled;
use super::writer::Writer;
use geometry::point::Point;
use index_edge::IndexEdge;
use refusal::Refusal;

// What is told of a job. Not the planner's own answer, which this crate knows nothing of.
#[derive(Clone, Copy)]
pub enum Report<'a> {
    // The moves made, the records at the start, and the loop.
    Delivered {
        moves: usize,
        cross: usize,
        told: Loop<'a>,
    },
    // The picks are used up: the records left, and the ring then.
    Stopped {
        left: usize,
        told: Tangled<'a>,
    },
    // Any other refusal.
    Refused(Refusal),
    // One by its number alone, also by a number that no `Refusal` has.
    Numbered(u8),
}

// The line `ok N moves M cross C feed F`.
#[tactic(auto, using(crate::proofs::Decimals::length_decimal))]
fn put_summary(w: &mut Writer, n: u64, moves: u64, cross: u64, feed: u64)
    requires { HasRoom w.old 104 }
    ensures { Wrote w.old w.new (summary n moves cross feed) }
{
    w.field(b"ok ", n);
    w.field(b" moves ", moves);
    w.field(b" cross ", cross);
    w.field(b" feed ", feed);
    w.text(b"\n");
}

// A line of a text and a number.
#[tactic(auto, using(crate::proofs::Decimals::length_decimal))]
pub fn put_line(w: &mut Writer, text: &[u8], v: u64)
    requires { HasRoom w.old (length text.now + 21) }
    ensures { Wrote w.old w.new (text.now ++ (decimal v ++ ascii "\n")) }
{
    w.text(text);
    w.natural(v);
    w.text(b"\n");
}

// A point's line.
#[tactic(auto, using(crate::proofs::Decimals::length_integer))]
fn put_point(w: &mut Writer, p: Point)
    requires { HasRoom w.old 44 }
    ensures { Wrote w.old w.new (point_line (spot p)) }
{
    w.integer(p.x);
    w.text(b" ");
    w.integer(p.y);
    w.text(b"\n");
}

// The lines of the points by position.
fn put_points(w: &mut Writer, told: Loop)
    requires { HasRoom w.old (44 * length told.ring.now) }
    ensures { Wrote w.old w.new (point_lines (spots told.entry) told.entry.ring.now (length told.entry.ring.now)) }
{
    for i in 0..told.ring.len() {
        put_point(w, told.at(i).point);
    }
}

// An edge, `edge A B`. Its numbers have five digits at most.
#[tactic(auto, using(crate::proofs::Decimals::length_u16, crate::proofs::Lines::length_name))]
pub fn put_edge_name(w: &mut Writer, e: IndexEdge)
    requires { HasRoom w.old 16 }
    ensures text { Wrote w.old w.new (edge_name (edge_of e)) }
    ensures short { length (edge_name (edge_of e)) ≤ 16 }
{
    w.field(b"edge ", e.min.0 as u64);
    w.field(b" ", e.max.0 as u64);
}

// An edge's line, `edge A B C`.
#[tactic(auto, using(crate::proofs::Decimals::length_u16))]
fn put_edge(w: &mut Writer, e: IndexEdge, count: u16)
    requires { HasRoom w.old 23 }
    ensures { Wrote w.old w.new (edge_line (edge_of e) count) }
{
    put_edge_name(w, e);
    w.field(b" ", count as u64);
    w.text(b"\n");
}

// The lines of the edges by position; answers the sum of their counts.
fn put_edges(w: &mut Writer, told: Tangled) -> u64
    requires { HasRoom w.old (23 * length told.ring.now) }
    ensures lines { Wrote w.old w.new (edge_lines (tally told.entry) told.entry.ring.now (length told.entry.ring.now)) }
    ensures short { length (edge_lines (tally told.entry) told.entry.ring.now (length told.entry.ring.now)) ≤ 23 * length told.entry.ring.now }
    ensures total { result ≡ edge_sum (tally told.entry) (length told.entry.ring.now) told.entry.ring.now }
{
    let mut total = 0;
    for i in 0..told.ring.len() {
        let e = told.edge(i);
        let count = told.count(e);
        put_edge(w, e, count);
        total += count as u64;
    }
    total
}

// The lines of a run that used up its picks. The words before L are one text.
fn put_stopped(w: &mut Writer, left: usize, told: Tangled)
    requires { HasRoom w.old (63 + 23 * length told.ring.now) }
    ensures lines { Wrote w.old w.new (stopped_lines (tally told.entry) told.entry.ring.now left) }
    ensures short { length (stopped_lines (tally told.entry) told.entry.ring.now left) ≤ 63 + 23 * length told.entry.ring.now }
{
    put_line(w, b"refused 8 left ", left as u64);
    let total = put_edges(w, told);
    put_line(w, b"total ", total);
}

// The text of an answer.
fn put_text(w: &mut Writer, report: Report<'_>)
    requires { HasRoom w.old (104 + 44 * positions report) }
    ensures text { Wrote w.old w.new (report_text report.entry) }
    ensures short { length (report_text report.entry) ≤ 104 + 44 * positions report.entry }
{
    match report {
        Report::Delivered { moves, cross, told } => {
            let n = told.ring.len() as u64;
            put_summary(w, n, moves as u64, cross as u64, told.feed());
            put_points(w, told);
        }
        Report::Stopped { left, told } => put_stopped(w, left, told),
        Report::Refused(refusal) => put_line(w, b"refused ", refusal.number() as u64),
        Report::Numbered(number) => put_line(w, b"refused ", number as u64),
    }
}

// Writes an answer's text to the start of `out`, and answers its length.
pub fn put_report(report: Report<'_>, out: &mut [u8]) -> usize
    requires { 104 + 44 * positions report ≤ length out.old }
    ensures put { Put out.old 0 (report_text report.entry) result out.new }
    ensures within { result ≤ length out.new }
{
    let mut w = Writer::new(out);
    put_text(&mut w, report);
    w.at()
}
