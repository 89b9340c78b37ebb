// A run from a start that the checks accepted: the records of the starting ring, a move for each pick, and the finished loop the right way round.
// Set, points, polygon and tree are lent apart, here, in run.rt and in the crates below: of references in a struct within a struct, which was tried, the prover does not
// say what they hold afterwards.
ghost use Rattle.std.specs.Prelude.{◌≡◌, false, cond, [], ◌≤◌, eqb, length};
ghost use Rattle.geometry.specs.Spots.{spots};
ghost use Rattle.polygon.specs.Lent.{SameLoans};
ghost use Rattle.intersection_set.specs.Set.{buffers_in, pool_in, SameBuffers};
ghost use Rattle.intersection_set.specs.Within.{Room};
ghost use Rattle.machine.specs.Machine.{State, begin as starting};
ghost use Rattle.machine.specs.Answer.{finish as finished, refusal, too_many};
ghost use Rattle.box_tree.specs.Tree.{ring_tree, tree_size};
ghost use Rattle.untangle.specs.Running.{Running};
ghost use Rattle.resolve.specs.Ended.{Ended, Counted};

use super::run::{begin, run};
use box_tree::tree::build;
use checks::start::is_clockwise;
use geometry::lent::Points;
use intersection_set::intersection_set::IndexIntersectionSet;
use polygon::polygon::Polygon;

// With no record left the loop is reversed whole if its least point turns clockwise. Then its tree is another from root to leaves.
fn finish(points: Points<'_>, polygon: &mut Polygon<'_>, tree: &mut [i32], left: usize)
    requires { let n = points.n in
        (n ≡ length polygon.old.ring.now) × (2 ≤ n) × (tree.old ≡ ring_tree n (spots points) polygon.old.ring.now) }
    ensures same { SameLoans polygon.old polygon.new }
    ensures ring { polygon.new.ring.now ≡ cond (eqb left 0) (finished points.entry.n (spots points.entry) polygon.old.ring.now) polygon.old.ring.now }
    ensures tree { tree.new ≡ ring_tree points.entry.n (spots points.entry) polygon.new.ring.now }
{
    if left == 0 && is_clockwise(points, polygon.as_slice()) {
        polygon.turn_round();
        build(points, polygon.as_slice(), tree);
    }
}

// What a run counts.
#[derive(Clone, Copy, Debug, PartialEq, Eq)]
pub struct Resolved {
    pub moves: usize,
    pub cross: usize,
    pub left: usize,
}

// From a set and a ring that hold a state which a run can go on from: a move for each pick, and the finished loop the right way round.
pub fn go_on(
    set: &mut IndexIntersectionSet<'_>,
    points: Points<'_>,
    polygon: &mut Polygon<'_>,
    tree: &mut [i32],
    picks: &[u32],
) -> Resolved
    requires { let n = set.old.vertices in
        (points.n ≡ n) × (length picks.now ≤ 1000000) × (tree.old ≡ ring_tree n (spots points) polygon.old.ring.now) × ((s : State) × Running n (spots points) s [] polygon.old.ring.now polygon.old.index.now (pool_in set.old)) }
    ensures same { SameBuffers set.old set.new }
    ensures room { Room set.old.vertices (buffers_in set.new) }
    ensures loans { SameLoans polygon.old polygon.new }
    ensures tree { tree.new ≡ ring_tree set.old.vertices (spots points.entry) polygon.new.ring.now }
    ensures ended { let n = set.old.vertices in
        let pt = spots points.entry in
        (s : State) → Running n pt s [] polygon.old.ring.now polygon.old.index.now (pool_in set.old)
        → Counted n pt s picks.now result.moves result.cross result.left × Ended n pt s picks.now polygon.new.ring.now polygon.new.index.now (buffers_in set.new) }
{
    let cross = set.len();
    let moves = run(set, points, polygon, tree, picks);
    let left = set.len();
    finish(points, polygon, tree, left);
    Resolved { moves, cross, left }
}

// From a start that the checks accepted.
pub fn resolve(
    set: &mut IndexIntersectionSet<'_>,
    points: Points<'_>,
    polygon: &mut Polygon<'_>,
    tree: &mut [i32],
    picks: &[u32],
) -> Resolved
    requires { let n = set.old.vertices in
        (points.n ≡ n) × (refusal n (spots points) false (too_many picks.now) polygon.old.ring.now ≡ 0) × Room n (buffers_in set.old) × (length tree.old ≡ tree_size n) }
    ensures same { SameBuffers set.old set.new }
    ensures room { Room set.old.vertices (buffers_in set.new) }
    ensures loans { SameLoans polygon.old polygon.new }
    ensures tree { tree.new ≡ ring_tree set.old.vertices (spots points.entry) polygon.new.ring.now }
    ensures ended { let n = set.old.vertices in
        let pt = spots points.entry in
        let first = (starting n pt polygon.old.ring.now).now in
        Counted n pt first picks.now result.moves result.cross result.left × Ended n pt first picks.now polygon.new.ring.now polygon.new.index.now (buffers_in set.new) }
{
    begin(set, points, polygon.as_slice(), tree);
    go_on(set, points, polygon, tree, picks)
}
