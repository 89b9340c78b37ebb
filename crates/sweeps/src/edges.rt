// The edges of a ring.
ghost use Rattle.std.specs.Prelude.{◌≡◌, ◌<◌};
ghost use Rattle.index_edge.specs.Edge.{edge};
ghost use Rattle.index_edge.specs.Number.{edge_of};
ghost use Rattle.polygon.specs.Ring.{IsRing, at};
ghost use Rattle.polygon.specs.Place.{Both};
ghost use Rattle.polygon.specs.Edges.{edge_at};

use index_edge::IndexEdge;
use polygon::polygon::position_to_point_id;
use polygon::position::Position;

// The edge between the points at two positions.
pub fn edge_between(ring: &[u16], a: Position, b: Position) -> IndexEdge
    requires { IsRing a.size ring.now × Both a b }
    ensures { edge_of result ≡ edge (at ring.now a.id.0) (at ring.now b.id.0) }
{
    IndexEdge::new(
        position_to_point_id(ring, a.id),
        position_to_point_id(ring, b.id),
    )
}

// The edge that starts at a position (two_opt.rs, `edges`).
pub fn edge_at(ring: &[u16], at: Position) -> IndexEdge
    requires { IsRing at.size ring.now × (at.id.0 < at.size) }
    ensures { edge_of result ≡ edge_at at.size ring.now at.id.0 }
{
    edge_between(ring, at, at.next())
}
