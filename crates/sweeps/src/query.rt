// Which edges of the ring meet an edge, by the tree of boxes.
ghost use Rattle.std.specs.Prelude.{◌≡◌, ◌≤◌, filter, length, take};
ghost use Rattle.geometry.specs.Spots.{spots};
ghost use Rattle.index_edge.specs.Number.{edge_of};
ghost use Rattle.polygon.specs.Ring.{IsRing};
ghost use Rattle.polygon.specs.Edges.{edge_at};
ghost use Rattle.intersection_set.specs.Within.{Proper};
ghost use Rattle.machine.specs.Board.{Board};
ghost use Rattle.box_tree.specs.Tree.{ring_tree};
ghost use Rattle.sweeps.specs.Query.{met, other, contacts, tests, Places, Kept};

use super::pair::Pair;
use super::segment::Segment;
use box_tree::bounds::Bounds;
use box_tree::query::{keep, query as near};
use geometry::lent::Points;
use index_edge::{IndexEdge, PointId};
use polygon::position::next_place;

// How many edges were found, and how many were tested.
#[derive(Clone, Copy, Debug, PartialEq, Eq)]
pub struct Contacts {
    pub count: usize,
    pub tested: usize,
}

// Of the ring's edges at some positions, those that meet an edge, in the same order. The edge itself is not tested.
fn test_edges(
    points: Points<'_>,
    ring: &[u16],
    edge: IndexEdge,
    near: &[u16],
    found: &mut [u16],
) -> Contacts
    requires { let n = points.n in
        IsRing n ring.now × Board n (spots points) × Proper n (edge_of edge) × Places n near.now × (length near.now ≤ length found.old) }
    ensures { let n = points.entry.n in
        let r = ring.now in
        Kept (met (spots points.entry) (edge_of edge)) (other (edge_of edge)) n r near.now found.old found.new result }
{
    let n = points.n;
    let a = Segment::new(points, edge);
    let mut count = 0;
    let mut tested = 0;
    for at in near {
        let i = *at as usize;
        let from = a.see(PointId(ring[i]));
        let to = a.see(PointId(ring[next_place(n, i)]));
        let compared = Pair { a, from, to }.compare();
        count = keep(found, count, i, compared.meets);
        tested += usize::from(compared.other);
    }
    Contacts { count, tested }
}

// The positions, in ascending order, of the ring's edges that meet an edge, itself left out; and how many edges were tested: the others whose box shares a place
// with its box.
pub fn query(
    points: Points<'_>,
    ring: &[u16],
    tree: &[i32],
    edge: IndexEdge,
    found: &mut [u16],
) -> Contacts
    requires { let n = points.n in
        let pt = spots points in
        IsRing n ring.now × Board n pt × Proper n (edge_of edge) × (tree.now ≡ ring_tree n pt ring.now) × (n ≤ length found.old) }
    ensures size { length found.new ≡ length found.old }
    ensures found { take result.count found.new ≡ contacts points.entry.n (spots points.entry) ring.now (edge_of edge) }
    ensures count { result.count ≡ length (contacts points.entry.n (spots points.entry) ring.now (edge_of edge)) }
    ensures tested { result.tested ≡ tests points.entry.n (spots points.entry) ring.now (edge_of edge) }
{
    let mut positions = [0u16; 256];
    let b = Bounds::new(points.at(edge.min).point, points.at(edge.max).point);
    let count = near(b, 0, points.n, tree, &mut positions, 0);
    test_edges(points, ring, edge, &positions[..count], found)
}
