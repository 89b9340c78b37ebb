// Whether some two edges of a ring meet.
//
// Compared are closed edges, by document 01's meeting and with the test of the searches: each edge and those behind it in the ring, n×(n-1)/2 pairs,
// neighbours among them. The original compares half-open edges (directed_edge.rs), which reject the same rings (`half_open_rejects`) by other pairs: there a
// corner belongs to the edge that starts in it alone, and a touch in the end of an edge is found with the edge after it. The closed ones were taken since
// theirs is the one test in use, and since the pairs that it finds are those that a run would record.
ghost use Rattle.std.specs.Prelude.{◌≡◌, ◌≤◌, ◌<◌};
ghost use Rattle.geometry.specs.Spots.{spots};
ghost use Rattle.index_edge.specs.Edge.{edge as edge_between};
ghost use Rattle.index_edge.specs.Number.{edge_of};
ghost use Rattle.polygon.specs.Ring.{IsRing};
ghost use Rattle.polygon.specs.Place.{fault_of as position_of};
ghost use Rattle.machine.specs.Board.{Distinct};
ghost use Rattle.sweeps.specs.Query.{met};
ghost use Rattle.validate.specs.Drawn.{first_behind as first_behind_of, contact, check_of};

use geometry::lent::Points;
use geometry::line_segment::same_side;
use index_edge::PointId;
use polygon::position::{Position, PositionId, next_place};
use refusal::Refusal;
use sweeps::edges::edge_at;
use sweeps::pair::Pair;
use sweeps::segment::Segment;

// The ring's edge is another and meets the one that is asked for. In a loop that passes most others have both ends on one side of that one, and so have those
// beside them: a branch that is foretold, where the edges of a search mostly cross.
fn is_met(pair: Pair<'_>) -> bool
    ensures { result ≡ met (spots pair.entry.a.points) (edge_of pair.entry.a.edge) (edge_between pair.entry.from.id.0 pair.entry.to.id.0) }
{
    !same_side(pair.from.turn, pair.to.turn) && pair.compare().meets
}

// The first edge behind a position that meets the edge there.
fn first_behind(points: Points<'_>, ring: &[u16], id: PositionId) -> Option<PositionId>
    requires { IsRing points.n ring.now × Distinct points.n (spots points) × (3 ≤ points.n) × (id.0 < points.n) }
    ensures { position_of result ≡ first_behind_of points.entry.n (spots points.entry) ring.now id.0 }
{
    let n = points.n;
    let i = id.0 as usize;
    let here = Position {
        id,
        size: points.size(),
    };
    let a = Segment::new(points, edge_at(ring, here));
    let mut from = a.see(PointId(ring[next_place(n, i)]));
    for j in i + 1..n {
        let to = a.see(PointId(ring[next_place(n, j)]));
        if is_met(Pair { a, from, to }) {
            return Some(PositionId(j as u16));
        }
        from = to;
    }
    None
}

// No two edges of the ring meet, or the first two that do.
pub fn check_contact(points: Points<'_>, ring: &[u16]) -> Result<(), Refusal>
    requires { IsRing points.n ring.now × Distinct points.n (spots points) × (3 ≤ points.n) }
    ensures { check_of result ≡ contact points.entry.n (spots points.entry) ring.now }
{
    for i in 0..points.size() {
        let first = PositionId(i);
        if let Some(second) = first_behind(points, ring, first) {
            return Err(Refusal::EdgesMeet {
                first: first.0 as usize,
                second: second.0 as usize,
            });
        }
    }
    Ok(())
}
