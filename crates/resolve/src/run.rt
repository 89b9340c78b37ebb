// The start of a run and the loop over the picks (two_opt.rs, `resolve_self_intersections`).
ghost use Rattle.std.specs.Prelude.{◌≡◌, false, [], ◌≤◌, length};
ghost use Rattle.geometry.specs.Spots.{spots};
ghost use Rattle.polygon.specs.Lent.{SameLoans};
ghost use Rattle.intersection_set.specs.Set.{buffers_in, pool_in, SameBuffers};
ghost use Rattle.intersection_set.specs.Within.{Room};
ghost use Rattle.intersection_set.specs.Holds.{Holds};
ghost use Rattle.machine.specs.Machine.{State, start, run_word, place};
ghost use Rattle.machine.specs.Answer.{refusal};
ghost use Rattle.machine.specs.Onward.{from};
ghost use Rattle.box_tree.specs.Tree.{ring_tree, tree_size};
ghost use Rattle.untangle.specs.Running.{Running};

use box_tree::tree::build;
use geometry::lent::Points;
use intersection_set::intersection_set::IndexIntersectionSet;
use polygon::polygon::Polygon;
use sweeps::sweep::pairs;
use untangle::untangle::untangle;

// The start: the ring's tree, no records, then every pair of ring edges that meet.
pub fn begin(set: &mut IndexIntersectionSet<'_>, points: Points<'_>, ring: &[u16], tree: &mut [i32])
    requires { let n = set.old.vertices in
        (points.n ≡ n) × (refusal n (spots points) false false ring.now ≡ 0) × Room n (buffers_in set.old) × (length tree.old ≡ tree_size n) }
    ensures same { SameBuffers set.old set.new }
    ensures free { set.new.free.now ≡ set.old.free.now }
    ensures tree { tree.new ≡ ring_tree set.old.vertices (spots points.entry) ring.now }
    ensures holds { let n = set.old.vertices in
        Holds n (pool_in set.new) (start n (spots points.entry) ring.now) }
{
    build(points, ring, tree);
    set.clear();
    pairs(set, points, ring, tree);
}

// One move for each pick, until the picks or the records are used up. Answers the moves made.
pub fn run(
    set: &mut IndexIntersectionSet<'_>,
    points: Points<'_>,
    polygon: &mut Polygon<'_>,
    tree: &mut [i32],
    picks: &[u32],
) -> usize
    requires { let n = set.old.vertices in
        (points.n ≡ n) × (length picks.now ≤ 1000000) × (tree.old ≡ ring_tree n (spots points) polygon.old.ring.now) × ((s : State) × Running n (spots points) s [] polygon.old.ring.now polygon.old.index.now (pool_in set.old)) }
    ensures same { SameBuffers set.old set.new }
    ensures loans { SameLoans polygon.old polygon.new }
    ensures tree { tree.new ≡ ring_tree set.old.vertices (spots points.entry) polygon.new.ring.now }
    ensures ran { let n = set.old.vertices in
        let pt = spots points.entry in
        (s : State) → Running n pt s [] polygon.old.ring.now polygon.old.index.now (pool_in set.old)
        → Running n pt s picks.now polygon.new.ring.now polygon.new.index.now (pool_in set.new) × (length (run_word n pt place picks.now (from s)).log ≡ result) }
{
    for (i, pick) in picks.iter().enumerate() {
        if set.is_empty() {
            return i;
        }
        let isect = set.random(*pick);
        untangle(set, isect, points, polygon, tree);
    }
    picks.len()
}
