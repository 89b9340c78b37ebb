// Records come and go: one edge against the ring, the start, and what a move removes and inserts. The set is lent apart from points and ring: of references in a
// struct within a struct the prover does not say what they hold afterwards. Points and ring alone are no struct: of the clauses only `IsRing` would go.
ghost use Rattle.std.specs.Prelude.{◌≡◌, map};
ghost use Rattle.geometry.specs.Spots.{spots};
ghost use Rattle.index_edge.specs.Number.{edge_of};
ghost use Rattle.polygon.specs.Ring.{IsRing};
ghost use Rattle.polygon.specs.Edges.{edges};
ghost use Rattle.intersection_set.specs.Store.{Store, removes};
ghost use Rattle.intersection_set.specs.Set.{pool_in, SameBuffers};
ghost use Rattle.intersection_set.specs.Within.{Proper};
ghost use Rattle.intersection_set.specs.Holds.{Holds};
ghost use Rattle.machine.specs.Board.{Board};
ghost use Rattle.box_tree.specs.Tree.{ring_tree};
ghost use Rattle.sweeps.specs.Sweep.{sweep_over, Fits};
ghost use Rattle.sweeps.specs.Several.{sweeps_over, AllProper, FitAll};

use super::candidate::{Against, candidate};
use super::edges::edge_at;
use super::query::query;
use geometry::lent::Points;
use index_edge::IndexEdge;
use intersection_set::intersection_set::IndexIntersectionSet;
use polygon::position::{Position, PositionId};

// Records an edge with each edge of the ring that it meets, of those that it is compared with.
pub fn sweep(
    set: &mut IndexIntersectionSet<'_>,
    against: Against,
    edge: IndexEdge,
    points: Points<'_>,
    ring: &[u16],
    tree: &[i32],
)
    requires { let n = set.old.vertices in
        let pt = spots points in
        (points.n ≡ n) × IsRing n ring.now × Board n pt × (tree.now ≡ ring_tree n pt ring.now) × Proper n (edge_of edge) × ((s : Store) × Holds n (pool_in set.old) s × Fits n pt ring.now against (edge_of edge) s) }
    ensures same { SameBuffers set.old set.new }
    ensures free { set.new.free.now ≡ set.old.free.now }
    ensures holds { let n = set.old.vertices in
        let pt = spots points.entry in
        (s : Store) → Holds n (pool_in set.old) s → Fits n pt ring.now against (edge_of edge) s
        → Holds n (pool_in set.new) (sweep_over pt against (edge_of edge) (edges n ring.now) s) }
{
    let mut found = [0u16; 256];
    let count = query(points, ring, tree, edge, &mut found).count;
    for at in &found[..count] {
        let here = Position {
            id: PositionId(*at),
            size: points.size(),
        };
        let Some(isect) = candidate(against, edge, edge_at(ring, here)) else {
            continue;
        };
        set.push(isect);
    }
}

// A sweep for each edge that a move inserted, in order.
pub fn scans(
    set: &mut IndexIntersectionSet<'_>,
    inserted: &[IndexEdge],
    points: Points<'_>,
    ring: &[u16],
    tree: &[i32],
)
    requires { let n = set.old.vertices in
        let pt = spots points in
        let l = map edge_of inserted.now in
        (points.n ≡ n) × IsRing n ring.now × Board n pt × (tree.now ≡ ring_tree n pt ring.now) × AllProper n l × ((s : Store) × Holds n (pool_in set.old) s × FitAll n pt ring.now Against.Others l s) }
    ensures same { SameBuffers set.old set.new }
    ensures free { set.new.free.now ≡ set.old.free.now }
    ensures holds { let n = set.old.vertices in
        let pt = spots points.entry in
        let l = map edge_of inserted.now in
        (s : Store) → Holds n (pool_in set.old) s → FitAll n pt ring.now Against.Others l s
        → Holds n (pool_in set.new) (sweeps_over pt Against.Others (edges n ring.now) l s) }
{
    for edge in inserted {
        sweep(set, Against::Others, *edge, points, ring, tree);
    }
}

// The start: a sweep for each edge of the ring.
pub fn pairs(set: &mut IndexIntersectionSet<'_>, points: Points<'_>, ring: &[u16], tree: &[i32])
    requires { let n = set.old.vertices in
        let pt = spots points in
        (points.n ≡ n) × IsRing n ring.now × Board n pt × (tree.now ≡ ring_tree n pt ring.now) × ((s : Store) × Holds n (pool_in set.old) s × FitAll n pt ring.now Against.Greater (edges n ring.now) s) }
    ensures same { SameBuffers set.old set.new }
    ensures free { set.new.free.now ≡ set.old.free.now }
    ensures holds { let n = set.old.vertices in
        let pt = spots points.entry in
        let l = edges n ring.now in
        (s : Store) → Holds n (pool_in set.old) s → FitAll n pt ring.now Against.Greater l s
        → Holds n (pool_in set.new) (sweeps_over pt Against.Greater l l s) }
{
    let n = set.vertices;
    for i in 0..n {
        let at = Position {
            id: PositionId(i as u16),
            size: n as u16,
        };
        sweep(set, Against::Greater, edge_at(ring, at), points, ring, tree);
    }
}

// Removes all records of each of some edges in order.
pub fn remove_edges(set: &mut IndexIntersectionSet<'_>, removed: &[IndexEdge])
    requires { let n = set.old.vertices in
        AllProper n (map edge_of removed.now) × ((s : Store) × Holds n (pool_in set.old) s) }
    ensures same { SameBuffers set.old set.new }
    ensures ends { set.new.ends.now ≡ set.old.ends.now }
    ensures removed { let n = set.old.vertices in
        (s : Store) → Holds n (pool_in set.old) s → Holds n (pool_in set.new) (removes (map edge_of removed.now) s) }
{
    for edge in removed {
        set.remove_all(*edge);
    }
}
