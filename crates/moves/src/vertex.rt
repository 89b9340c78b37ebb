// A vertex of the loop: a place on a ring over lent points, and how the ring turns there (polygon.rs, `Cursor`).
ghost use Rattle.std.specs.Prelude.{◌≡◌, ◌<◌};
ghost use Rattle.polygon.specs.Ring.{IsRing};

use cursor::Cursor;
use geometry::lent::Points;
use geometry::line_segment::is_inside;
use geometry::orientation::turn_of;
use geometry::point::NearPoint;
use polygon::position::Position;

#[derive(Clone, Copy)]
pub struct Vertex<'a> {
    pub points: Points<'a>,
    pub cursor: Cursor<'a>,
    pub ghost on_ring: { IsRing points.n cursor.ring.now × (cursor.position.size ≡ points.n) × (cursor.position.id.0 < points.n) },
}

impl<'a> Vertex<'a> {
    ghost use Rattle.std.specs.Prelude.{◌≡◌, ◌<◌};
    ghost use Rattle.geometry.specs.Segment.{inside};
    ghost use Rattle.geometry.specs.Lent.{spot};
    ghost use Rattle.polygon.specs.Ring.{IsRing, next, prev};
    ghost use Rattle.machine.specs.Board.{pt_at, turn_at};
    ghost use Rattle.moves.specs.Walk.{ring_of, place_of, point_of, Moved, On};

    // The vertex at a position of a ring.
    pub fn new(points: Points<'a>, ring: &'a [u16], position: Position) -> Vertex<'a>
        requires { IsRing points.n ring.now × (position.size ≡ points.n) × (position.id.0 < points.n) }
        ensures { (result.points ≡ points.entry) × (result.cursor.ring ≡ ring.entry) × (result.cursor.position ≡ position) }
    {
        let cursor = Cursor::new(ring, position);
        Vertex { points, cursor }
    }

    // The point that stands there.
    pub fn point(self) -> NearPoint
        ensures { spot result.point ≡ pt_at (point_of self.entry) (ring_of self.entry) (place_of self.entry) }
    {
        self.points.at(self.cursor.point_id())
    }

    // Another place on the same ring.
    pub fn at(self, position: Position) -> Vertex<'a>
        requires { On self position }
        ensures { Moved self.entry position.id.0 result }
    {
        Vertex::new(self.points, self.cursor.ring, position)
    }

    // One place on.
    pub fn next(self) -> Vertex<'a>
        ensures { Moved self.entry (next self.entry.points.n (place_of self.entry)) result }
    {
        self.at(self.cursor.position.next())
    }

    // One place back.
    pub fn prev(self) -> Vertex<'a>
        ensures { Moved self.entry (prev self.entry.points.n (place_of self.entry)) result }
    {
        self.at(self.cursor.position.prev())
    }

    // The turn of the point before it, itself and the point after it.
    pub fn orientation(self) -> i64
        ensures { result ≡ turn_at self.entry.points.n (point_of self.entry) (ring_of self.entry) (place_of self.entry) }
    {
        turn_of(self.prev().point(), self.point(), self.next().point())
    }

    // The edge that starts here holds a point strictly inside.
    pub fn holds(self, p: NearPoint) -> bool
        ensures { result ≡ inside (pt_at (point_of self.entry) (ring_of self.entry) (place_of self.entry)) (pt_at (point_of self.entry) (ring_of self.entry) (next self.entry.points.n (place_of self.entry))) (spot p.point) }
    {
        is_inside(self.point(), self.next().point(), p)
    }
}
