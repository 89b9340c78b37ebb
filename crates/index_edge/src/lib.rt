// Point numbers, and the edges between them (polygon.rs, `PointId` and `IndexEdge`).
#![tactic(auto)]

ghost use Rattle.std.specs.Prelude.{◌≡◌};
ghost use Rattle.index_edge.specs.Edge.{edge};
ghost use Rattle.index_edge.specs.Number.{edge_of};

// The number of a point. It is taken apart only where a slice is indexed.
#[derive(Clone, Copy, Debug, PartialEq, Eq, PartialOrd, Ord)]
pub struct PointId(pub u16);

// An unordered pair of point numbers, the smaller first. Edges compare by the first number, then by the second.
#[derive(Clone, Copy, Debug, PartialEq, Eq, PartialOrd, Ord)]
pub struct IndexEdge {
    pub min: PointId,
    pub max: PointId,
}

impl IndexEdge {
    pub fn new(a: PointId, b: PointId) -> IndexEdge
        ensures { edge_of result ≡ edge a.0 b.0 }
    {
        IndexEdge {
            min: a.min(b),
            max: a.max(b),
        }
    }
}
