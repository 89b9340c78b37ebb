// A ring that still has crossings, and how many records name each of its edges.
ghost use Rattle.job.specs.Tallied.{Tallied};

use index_edge::{IndexEdge, PointId};
use intersection_set::intersection_set::place;
use polygon::position::next_place;

// At each edge's place stands how many records name it.
#[derive(Clone, Copy)]
pub struct Tangled<'a> {
    pub ring: &'a [u16],
    pub tangles: &'a [u16],
    pub ghost tallied: { Tallied ring.now tangles.now },
}

impl<'a> Tangled<'a> {
    ghost use Rattle.std.specs.Prelude.{◌≡◌, ◌<◌, length};
    ghost use Rattle.index_edge.specs.Number.{edge_of};
    ghost use Rattle.polygon.specs.Edges.{edge_at};
    ghost use Rattle.intersection_set.specs.Within.{Proper};
    ghost use Rattle.job.specs.Tallies.{tally};

    // The edge from position i to the next.
    pub fn edge(self, i: usize) -> IndexEdge
        requires { i < length self.ring.now }
        ensures { edge_of result ≡ edge_at (length self.entry.ring.now) self.entry.ring.now i }
    {
        let next = next_place(self.ring.len(), i);
        IndexEdge::new(PointId(self.ring[i]), PointId(self.ring[next]))
    }

    // How many records name it.
    pub fn count(self, e: IndexEdge) -> u16
        requires { Proper (length self.ring.now) (edge_of e) }
        ensures { result ≡ tally self.entry (edge_of e) }
    {
        self.tangles[place(self.ring.len(), e)]
    }
}
