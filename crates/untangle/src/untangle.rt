// One move on all that is lent: ring, index and records (two_opt.rs, `untangle`).
ghost use Rattle.std.specs.Prelude.{◌≡◌, List, [], ◌∷◌, ◌++◌, ℕ};
ghost use Rattle.geometry.specs.Spots.{spots};
ghost use Rattle.index_edge.specs.Number.{edge_of};
ghost use Rattle.intersection_set.specs.Set.{pool_in, SameBuffers};
ghost use Rattle.polygon.specs.Lent.{SameLoans};
ghost use Rattle.machine.specs.Machine.{State};
ghost use Rattle.box_tree.specs.Tree.{ring_tree};
ghost use Rattle.untangle.specs.Running.{Running, Picked};

use super::change::{inserted_edges, removed_edges, turn_ring, turn_tree};
use geometry::lent::Points;
use intersection_set::intersection_set::{IndexIntersection, IndexIntersectionSet};
use moves::plan::plan;
use polygon::polygon::Polygon;
use sweeps::sweep::{remove_edges, scans};

// Replaces two edges that meet, so that the loop gets shorter. Set, points, polygon and tree are lent apart: of references in a struct within a struct the prover
// does not say what they hold afterwards.
pub fn untangle(
    set: &mut IndexIntersectionSet<'_>,
    isect: IndexIntersection,
    points: Points<'_>,
    polygon: &mut Polygon<'_>,
    tree: &mut [i32],
)
    requires { let n = set.old.vertices in
        let pt = spots points in
        (points.n ≡ n) × (tree.old ≡ ring_tree n pt polygon.old.ring.now) × ((s : State) × (cs : List ℕ) × (pick : ℕ) × Running n pt s cs polygon.old.ring.now polygon.old.index.now (pool_in set.old) × Picked n pt s cs pick (edge_of isect.min) (edge_of isect.max)) }
    ensures same { SameBuffers set.old set.new }
    ensures loans { SameLoans polygon.old polygon.new }
    ensures tree { tree.new ≡ ring_tree set.old.vertices (spots points.entry) polygon.new.ring.now }
    ensures running { let n = set.old.vertices in
        let pt = spots points.entry in
        (s : State) (cs : List ℕ) (pick : ℕ) → Running n pt s cs polygon.old.ring.now polygon.old.index.now (pool_in set.old)
        → Picked n pt s cs pick (edge_of isect.min) (edge_of isect.max)
        → Running n pt s (cs ++ pick ∷ []) polygon.new.ring.now polygon.new.index.now (pool_in set.new) }
{
    let plan = plan(points, polygon, isect.min, isect.max);
    let before = polygon.as_slice();
    let removed = removed_edges(before, plan);
    let inserted = inserted_edges(before, plan);
    remove_edges(set, removed.as_slice());
    turn_ring(polygon, plan);
    let ring = polygon.as_slice();
    turn_tree(points, ring, plan, tree);
    scans(set, inserted.as_slice(), points, ring, tree);
}
