// A kink of the loop, with what the search asks of it at every edge.
ghost use Rattle.std.specs.Prelude.{◌≡◌};
ghost use Rattle.geometry.specs.Lent.{spot, order_key};
ghost use Rattle.machine.specs.Board.{pt_at};
ghost use Rattle.moves.specs.Walk.{ring_of, place_of, point_of};

use super::vertex::Vertex;
use geometry::point::NearPoint;

// A vertex that an edge is searched for, with its point and that point's order key.
#[derive(Clone, Copy)]
pub struct Kink<'a> {
    pub vertex: Vertex<'a>,
    pub point: NearPoint,
    pub key: i64,
    pub ghost stands: { spot point.point ≡ pt_at (point_of vertex) (ring_of vertex) (place_of vertex) },
    pub ghost keyed: { key ≡ order_key (spot point.point) },
}

impl<'a> Kink<'a> {
    ghost use Rattle.geometry.specs.Plane.{lt_point};

    pub fn new(vertex: Vertex<'a>) -> Kink<'a>
        ensures { result.vertex ≡ vertex.entry }
    {
        let point = vertex.point();
        let key = point.order_key();
        Kink { vertex, point, key }
    }

    // The point at another vertex is below it in point order.
    pub fn is_above(self, at: Vertex<'_>) -> bool
        ensures { result ≡ lt_point (pt_at (point_of at.entry) (ring_of at.entry) (place_of at.entry)) (spot self.entry.point.point) }
    {
        at.point().order_key() < self.key
    }
}
