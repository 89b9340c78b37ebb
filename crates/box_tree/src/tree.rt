// The tree in its buffer: four numbers for a box, a node before its whole first half, and that before the second.
//
// A function is lent exactly the numbers of its part. Up to eight leaves are made in a row, with no call for each.
ghost use Rattle.std.specs.Prelude.{◌≡◌, ltb, true, ◌++◌, ℕ, ◌+◌, ◌*◌, ◌≤◌, ◌<◌, length, drop};
ghost use Rattle.geometry.specs.Lent.{spot};
ghost use Rattle.geometry.specs.Spots.{spots};
ghost use Rattle.polygon.specs.Ring.{IsRing, at, dist};
ghost use Rattle.box_tree.specs.Boxes.{span, unite};
ghost use Rattle.box_tree.specs.Tree.{four, read_box, box_at, buffer, ring_tree, tree_size};
ghost use Rattle.box_tree.specs.Within.{Part, HeldBut};

use crate::bounds::Bounds;
use geometry::lent::Points;
use geometry::point::Point;
use index_edge::PointId;
use polygon::position::next_place;

// The point at a position.
fn point_at(points: Points<'_>, ring: &[u16], i: usize) -> Point
    requires { IsRing points.n ring.now × (i < points.n) }
    ensures { spot result ≡ spots points.entry (at ring.now i) }
{
    points.at(PointId(ring[i])).point
}

// A node's own box, where its halves are there: the second begins at this place.
fn write_union(tree: &mut [i32], second: usize)
    requires { (4 ≤ second) × (second + 4 ≤ length tree.old) }
    ensures { tree.new ≡ four (unite (read_box (drop 4 tree.old)) (read_box (drop second tree.old))) ++ drop 4 tree.old }
{
    let b = Bounds::read(&tree[4..]).union(Bounds::read(&tree[second..]));
    b.write(tree);
}

// ---- few leaves

#[tactic(auto, using(crate::proofs::Leaves::leaf_made))]
fn one_leaf(points: Points<'_>, ring: &[u16], i: usize, tree: &mut [i32])
    requires { Part points.n ring.now i 1 tree.old }
    ensures { tree.new ≡ buffer (box_at points.entry.n (spots points.entry) ring.now) i 1 }
{
    let p = point_at(points, ring, i);
    let q = point_at(points, ring, next_place(points.n, i));
    Bounds::new(p, q).write(tree);
}

// The leaves from p to q and from q to r, and their union.
fn write_pair(p: Point, q: Point, r: Point, tree: &mut [i32])
    requires { length tree.old ≡ 12 }
    ensures { tree.new ≡ four (unite (span (spot p) (spot q)) (span (spot q) (spot r))) ++ (four (span (spot p) (spot q)) ++ four (span (spot q) (spot r))) }
{
    let first = Bounds::new(p, q);
    let second = Bounds::new(q, r);
    first.write(&mut tree[4..8]);
    second.write(&mut tree[8..12]);
    first.union(second).write(tree);
}

fn two_leaves(points: Points<'_>, ring: &[u16], i: usize, tree: &mut [i32])
    requires { Part points.n ring.now i 2 tree.old }
    ensures { tree.new ≡ buffer (box_at points.entry.n (spots points.entry) ring.now) i 2 }
{
    let p = point_at(points, ring, i);
    let q = point_at(points, ring, i + 1);
    let r = point_at(points, ring, next_place(points.n, i + 1));
    write_pair(p, q, r, tree);
}

fn three_leaves(points: Points<'_>, ring: &[u16], i: usize, tree: &mut [i32])
    requires { Part points.n ring.now i 3 tree.old }
    ensures { tree.new ≡ buffer (box_at points.entry.n (spots points.entry) ring.now) i 3 }
{
    one_leaf(points, ring, i, &mut tree[4..8]);
    two_leaves(points, ring, i + 1, &mut tree[8..]);
    write_union(tree, 8);
}

// Each point is read once.
fn four_leaves(points: Points<'_>, ring: &[u16], i: usize, tree: &mut [i32])
    requires { Part points.n ring.now i 4 tree.old }
    ensures { tree.new ≡ buffer (box_at points.entry.n (spots points.entry) ring.now) i 4 }
{
    let p = point_at(points, ring, i);
    let q = point_at(points, ring, i + 1);
    let r = point_at(points, ring, i + 2);
    let s = point_at(points, ring, i + 3);
    let t = point_at(points, ring, next_place(points.n, i + 3));
    write_pair(p, q, r, &mut tree[4..16]);
    write_pair(r, s, t, &mut tree[16..]);
    write_union(tree, 16);
}

// Up to four.
#[inline(always)]
fn few(points: Points<'_>, ring: &[u16], i: usize, k: usize, tree: &mut [i32])
    requires { Part points.n ring.now i k tree.old × (k ≤ 4) }
    ensures { tree.new ≡ buffer (box_at points.entry.n (spots points.entry) ring.now) i k }
{
    if k == 4 {
        return four_leaves(points, ring, i, tree);
    }
    if k == 3 {
        return three_leaves(points, ring, i, tree);
    }
    if k == 2 {
        return two_leaves(points, ring, i, tree);
    }
    one_leaf(points, ring, i, tree)
}

// Up to eight.
fn leaves(points: Points<'_>, ring: &[u16], i: usize, k: usize, tree: &mut [i32])
    requires { Part points.n ring.now i k tree.old × (k ≤ 8) }
    ensures { tree.new ≡ buffer (box_at points.entry.n (spots points.entry) ring.now) i k }
{
    if k <= 4 {
        return few(points, ring, i, k, tree);
    }
    let half = k / 2;
    let second = 8 * half;
    few(points, ring, i, half, &mut tree[4..second]);
    few(points, ring, i + half, k - half, &mut tree[second..]);
    write_union(tree, second);
}

// ---- the whole tree

// The tree of k positions from i on, made from nothing.
fn grow(points: Points<'_>, ring: &[u16], i: usize, k: usize, tree: &mut [i32])
    requires { Part points.n ring.now i k tree.old }
    ensures { tree.new ≡ buffer (box_at points.entry.n (spots points.entry) ring.now) i k }
{
    if k <= 8 {
        return leaves(points, ring, i, k, tree);
    }
    let half = k / 2;
    let second = 8 * half;
    grow(points, ring, i, half, &mut tree[4..second]);
    grow(points, ring, i + half, k - half, &mut tree[second..]);
    write_union(tree, second);
}

// Of the k positions from i on, none is from `from` on to `to`, wrapping if need be.
fn is_apart(i: usize, k: usize, from: usize, to: usize) -> bool
    requires { i + k < 65536 }
    ensures { (n : ℕ) → from < n → to < n → i + k ≤ n → result ≡ true → (j : ℕ) → i ≤ j → j < i + k → dist n from to < dist n from j }
{
    if from <= to {
        (to < i) | (i + k <= from)
    } else {
        (to < i) & (i + k <= from)
    }
}

// The tree of k positions from i on, where edges have changed at the positions from `from` on to `to`: only the nodes above one of these are made anew.
fn refresh(
    points: Points<'_>,
    ring: &[u16],
    i: usize,
    k: usize,
    from: usize,
    to: usize,
    tree: &mut [i32],
)
    requires { let f = box_at points.n (spots points) ring.now in
        Part points.n ring.now i k tree.old × HeldBut points.n from to f i k tree.old }
    ensures { tree.new ≡ buffer (box_at points.entry.n (spots points.entry) ring.now) i k }
{
    if is_apart(i, k, from, to) {
        return;
    }
    if k <= 8 {
        return leaves(points, ring, i, k, tree);
    }
    let half = k / 2;
    let second = 8 * half;
    refresh(points, ring, i, half, from, to, &mut tree[4..second]);
    refresh(
        points,
        ring,
        i + half,
        k - half,
        from,
        to,
        &mut tree[second..],
    );
    write_union(tree, second);
}

// How many numbers the tree of n points takes.
pub fn tree_size(n: usize) -> usize
    requires { n ≤ 256 }
    ensures { result ≡ tree_size n }
{
    4 * (2 * n).saturating_sub(1)
}

// Check 2 of a tree's buffer. With more than 256 points check 1 refuses first, and the answer is not asked for.
pub fn too_short(n: usize, tree: &[i32]) -> bool
    ensures { n ≤ 256 → result ≡ ltb (length tree.now) (tree_size n) }
{
    256 < n || tree.len() < tree_size(n)
}

// The whole tree of a ring, made from nothing.
#[tactic(auto, using(crate::proofs::Leaves::none_made), unfolding(crate::specs::Tree::ring_tree))]
pub fn build(points: Points<'_>, ring: &[u16], tree: &mut [i32])
    requires { IsRing points.n ring.now × (length tree.old ≡ tree_size points.n) }
    ensures { tree.new ≡ ring_tree points.entry.n (spots points.entry) ring.now }
{
    if points.n == 0 {
        return;
    }
    grow(points, ring, 0, points.n, tree);
}

// The whole tree of a ring whose edges have changed at the positions from `from` on to `to`, both included, wrapping if need be.
#[tactic(auto, unfolding(crate::specs::Tree::ring_tree))]
pub fn update(points: Points<'_>, ring: &[u16], from: usize, to: usize, tree: &mut [i32])
    requires { let f = box_at points.n (spots points) ring.now in
        IsRing points.n ring.now × HeldBut points.n from to f 0 points.n tree.old }
    ensures { tree.new ≡ ring_tree points.entry.n (spots points.entry) ring.now }
{
    refresh(points, ring, 0, points.n, from, to, tree);
}
