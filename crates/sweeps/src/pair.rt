// An edge and an edge of the ring: how they meet.
ghost use Rattle.std.specs.Prelude.{◌≡◌, true, false, ◌&&◌, ◌||◌, eqb};
ghost use Rattle.std.specs.Int.Signed.{lt_z};
ghost use Rattle.geometry.specs.Plane.{is_zero};
ghost use Rattle.geometry.specs.Segment.{is_open};
ghost use Rattle.geometry.specs.Lent.{spot};
ghost use Rattle.geometry.specs.Answers.{end_of, mark_of};
ghost use Rattle.sweeps.specs.Sight.{Sight};

use super::segment::{Seen, Segment};
use geometry::line_segment::{ContactKind, EndPoint, LineSegment, crosses};
use geometry::point::NearPoint;
use index_edge::{IndexEdge, PointId};

// The edge `a`, and the ring's edge from one point to the next.
#[derive(Clone, Copy)]
pub struct Pair<'a> {
    pub a: Segment<'a>,
    pub from: Seen,
    pub to: Seen,
    pub ghost sight: { Sight a from to },
}

// Whether the ring's edge is another than `a`, and whether it is and meets it.
#[derive(Clone, Copy, Debug, PartialEq, Eq)]
pub struct Compared {
    pub other: bool,
    pub meets: bool,
}

// An end of an edge: point number a, which stands at t. It is open if it ends the edge from b to c, too.
fn endpoint(a: PointId, b: PointId, c: PointId, t: NearPoint) -> EndPoint
    ensures { (end_of result ≡ spot t.point) × (is_open (mark_of result) ≡ (eqb a.0 b.0 || eqb a.0 c.0)) }
{
    if (a == b) | (a == c) {
        EndPoint::Exclusive(t.point)
    } else {
        EndPoint::Inclusive(t.point)
    }
}

// From low to high, and from c to d in either direction, there is more than an end in common.
fn keys_overlap(low: i64, high: i64, c: i64, d: i64) -> bool
    ensures { result ≡ ((lt_z low c || lt_z low d) && (lt_z c high || lt_z d high)) }
{
    ((low < c) | (low < d)) & ((c < high) | (d < high))
}

impl<'a> Pair<'a> {
    ghost use Rattle.std.specs.Prelude.{◌≡◌, not};
    ghost use Rattle.geometry.specs.Segment.{overlap};
    ghost use Rattle.geometry.specs.Answers.{without_ends};
    ghost use Rattle.geometry.specs.Spots.{spots};
    ghost use Rattle.index_edge.specs.Edge.{edge as edge_between, eq_edge};
    ghost use Rattle.index_edge.specs.Number.{edge_of};
    ghost use Rattle.machine.specs.Board.{kind_edges};
    ghost use Rattle.sweeps.specs.Query.{Compares};

    // All four points are on one line.
    fn on_line(self) -> bool
        ensures { result ≡ (is_zero self.entry.from.turn && is_zero self.entry.to.turn) }
    {
        (self.from.turn == 0) & (self.to.turn == 0)
    }

    // Then the order of the ends decides.
    fn overlaps(self) -> bool
        ensures { let pt = spots self.entry.a.points in
            result ≡ overlap (pt self.entry.a.edge.min.0) (pt self.entry.a.edge.max.0) (pt self.entry.from.id.0) (pt self.entry.to.id.0) }
    {
        keys_overlap(self.a.low, self.a.high, self.from.key, self.to.key)
    }

    // How the edges meet, an end that they share left out. The points are read again: most pairs are settled without it (`compare`).
    pub fn intersect(self) -> Option<ContactKind>
        ensures { result ≡ without_ends (kind_edges (spots self.entry.a.points) (edge_of self.entry.a.edge) (edge_between self.entry.from.id.0 self.entry.to.id.0)) }
    {
        let Pair { a, from, to } = self;
        if self.on_line() {
            return self.overlaps().then_some(ContactKind::Overlap);
        }
        let segment = LineSegment {
            min: endpoint(a.edge.min, from.id, to.id, a.min),
            max: endpoint(a.edge.max, from.id, to.id, a.max),
        };
        let other = LineSegment {
            min: endpoint(from.id, a.edge.min, a.edge.max, a.points.at(from.id)),
            max: endpoint(to.id, a.edge.min, a.edge.max, a.points.at(to.id)),
        };
        segment.intersect(other, from.turn, to.turn)
    }

    // The ring's edge is another than `a`.
    fn is_other(self) -> bool
        ensures { result ≡ not (eq_edge (edge_between self.entry.from.id.0 self.entry.to.id.0) (edge_of self.entry.a.edge)) }
    {
        IndexEdge::new(self.from.id, self.to.id) != self.a.edge
    }

    // By the whole rule.
    fn compare_by_kind(self) -> Compared
        ensures { Compares (spots self.entry.a.points) (edge_of self.entry.a.edge) (edge_between self.entry.from.id.0 self.entry.to.id.0) result }
    {
        let other = self.is_other();
        if !other {
            return Compared {
                other,
                meets: false,
            };
        }
        Compared {
            other,
            meets: self.intersect().is_some(),
        }
    }

    // Most pairs have no point of the one on the other's line: then the edge is another, and no part of the rule is a branch.
    #[inline(always)] // the moves of 256 random points take a fifth more without
    pub fn compare(self) -> Compared
        ensures { Compares (spots self.entry.a.points) (edge_of self.entry.a.edge) (edge_between self.entry.from.id.0 self.entry.to.id.0) result }
    {
        let Pair { a, from, to } = self;
        if (from.turn == 0) | (to.turn == 0) {
            return self.compare_by_kind();
        }
        let from_point = a.points.at(from.id);
        let to_point = a.points.at(to.id);
        let meets = crosses(a.min, a.max, from_point, to_point, from.turn, to.turn);
        Compared { other: true, meets }
    }
}
