// What record two edges that meet make.
ghost use Rattle.std.specs.Prelude.{◌≡◌, false};
ghost use Rattle.index_edge.specs.Edge.{eq_edge};
ghost use Rattle.index_edge.specs.Number.{edge_of};
ghost use Rattle.sweeps.specs.Found.{Found};

use index_edge::IndexEdge;
use intersection_set::intersection_set::IndexIntersection;

// Which edges of the ring one is compared with: in a move every other one, at the start every greater one.
#[derive(Clone, Copy, PartialEq, Eq, Debug)]
pub enum Against {
    Others,
    Greater,
}

// The record of an edge and one that meets it, if the edge is compared with that.
pub fn candidate(against: Against, edge: IndexEdge, other: IndexEdge) -> Option<IndexIntersection>
    requires { eq_edge (edge_of other) (edge_of edge) ≡ false }
    ensures { Found against (edge_of edge) (edge_of other) result }
{
    match against {
        Against::Others => Some(IndexIntersection::new(other, edge)),
        Against::Greater if edge < other => Some(IndexIntersection::new(edge, other)),
        Against::Greater => None,
    }
}
