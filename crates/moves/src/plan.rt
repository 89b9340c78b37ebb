// The move for a record (two_opt.rs, `untangle` before it changes anything).
//
// Two edges that cross are uncrossed: the two new edges are shorter than the two old ones. Two edges on one line cannot be helped that way:
//
//     prev
//       |
//       a1 -----> a2
// b1 -------> b2
//
// There a kink, a point that is not on a straight line with its neighbours, is hoisted into the edge that covers it:
//
//     prev
//        \------> a2
// b1 -> a1 -> b2
//
// The way from b1 to b2 is as long as before, and that from prev to a2 is shorter.
ghost use Rattle.std.specs.Prelude.{◌≡◌, length};
ghost use Rattle.geometry.specs.Spots.{spots};
ghost use Rattle.index_edge.specs.Number.{edge_of};
ghost use Rattle.polygon.specs.Edges.{direct};
ghost use Rattle.machine.specs.Board.{Board};
ghost use Rattle.machine.specs.Search.{flat, plan_at};
ghost use Rattle.moves.specs.Walk.{ring_of, place_of, point_of, On};
ghost use Rattle.moves.specs.Runs.{Folded};
ghost use Rattle.moves.specs.Plan.{plan_of, Met, Crossing};

use super::search::{Mergable, kink_and_edge};
use super::vertex::Vertex;
use geometry::lent::Points;
use geometry::orientation::is_colinear;
use index_edge::IndexEdge;
use polygon::polygon::Polygon;
use polygon::position::{Position, PositionId};

// What a move does: the positions where two crossing edges start, or a kink and the edge that it goes into.
#[derive(Clone, Copy, Debug, PartialEq, Eq)]
pub enum Move {
    Uncross { from: PositionId, to: PositionId },
    Hoist { kink: PositionId, edge: PositionId },
}

// All four ends of the edges that start at two positions lie on one line.
fn parallel_edges(da: Vertex<'_>, db: Position) -> bool
    requires { On da db }
    ensures { result ≡ flat da.entry.points.n (point_of da.entry) (ring_of da.entry) (place_of da.entry) db.id.0 }
{
    let a1 = da.point();
    let a2 = da.next().point();
    let b = da.at(db);
    is_colinear(a1, a2, b.point()) & is_colinear(a1, a2, b.next().point())
}

// The hoist for two edges that meet on one line. There is always a kink that an edge holds.
fn hoist(da: Vertex<'_>, db: Position) -> Move
    requires { On da db × Board da.points.n (point_of da) × Folded da.points.n (point_of da) (ring_of da) (place_of da) db.id.0 }
    ensures { plan_of result ≡ plan_at da.entry.points.n (point_of da.entry) (ring_of da.entry) (place_of da.entry) db.id.0 }
{
    let Some(Mergable { kink, edge }) = kink_and_edge(da, db) else {
        unreachable!();
    };
    Move::Hoist { kink, edge }
}

// The move for two edges that meet, by where they start.
fn move_at(da: Vertex<'_>, db: Position) -> Move
    requires { On da db × Board da.points.n (point_of da) × Met da.points.n (point_of da) (ring_of da) (place_of da) db.id.0 }
    ensures { plan_of result ≡ plan_at da.entry.points.n (point_of da.entry) (ring_of da.entry) (place_of da.entry) db.id.0 }
{
    if parallel_edges(da, db) {
        return hoist(da, db);
    }
    Move::Uncross {
        from: da.cursor.position.id,
        to: db.id,
    }
}

// The move for a record of two edges.
pub fn plan(points: Points<'_>, polygon: &Polygon<'_>, min: IndexEdge, max: IndexEdge) -> Move
    requires { (points.n ≡ length polygon.now.ring.now) × Board points.n (spots points) × Crossing points.n (spots points) polygon.now.ring.now (edge_of min) (edge_of max) }
    ensures { plan_of result ≡ plan_at points.entry.n (spots points.entry) polygon.now.ring.now (direct points.entry.n polygon.now.ring.now (edge_of min)) (direct points.entry.n polygon.now.ring.now (edge_of max)) }
{
    let da = polygon.direct(min);
    let db = polygon.direct(max);
    move_at(Vertex::new(points, polygon.ring, da), db)
}
