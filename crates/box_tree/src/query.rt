// Which positions' boxes share a place with a box, in ascending order.
//
// A node is tested where it stands above more than 16 leaves; below that every leaf is, with no test of a node and no branch, since there a test costs more
// than it saves. What is found is appended to a list of positions, which a caller has room for.
ghost use Rattle.std.specs.Prelude.{◌≤◌, ◌<◌, length, [], ◌∷◌, cond};
ghost use Rattle.box_tree.specs.Within.{Appended, Asked, Finds};

use crate::bounds::Bounds;

// Position i is appended to the first c found, or not. It is written in either case, so that no branch is taken.
pub fn keep(found: &mut [u16], c: usize, i: usize, ok: bool) -> usize
    requires { (c < length found.old) × (i < 65536) }
    ensures { Appended found.old c found.new result (cond ok (i ∷ []) []) }
{
    found[c] = i as u16;
    c + usize::from(ok)
}

// ---- few leaves

fn one(b: Bounds, i: usize, tree: &[i32], found: &mut [u16], c: usize) -> usize
    requires { Asked i 1 tree.now found.old c }
    ensures { Finds b i 1 tree.now found.old c found.new result }
{
    keep(found, c, i, b.shares(Bounds::read(tree)))
}

fn two(b: Bounds, i: usize, tree: &[i32], found: &mut [u16], c: usize) -> usize
    requires { Asked i 2 tree.now found.old c }
    ensures { Finds b i 2 tree.now found.old c found.new result }
{
    let c = one(b, i, &tree[4..8], found, c);
    one(b, i + 1, &tree[8..], found, c)
}

fn three(b: Bounds, i: usize, tree: &[i32], found: &mut [u16], c: usize) -> usize
    requires { Asked i 3 tree.now found.old c }
    ensures { Finds b i 3 tree.now found.old c found.new result }
{
    let c = one(b, i, &tree[4..8], found, c);
    two(b, i + 1, &tree[8..], found, c)
}

fn four(b: Bounds, i: usize, tree: &[i32], found: &mut [u16], c: usize) -> usize
    requires { Asked i 4 tree.now found.old c }
    ensures { Finds b i 4 tree.now found.old c found.new result }
{
    let c = two(b, i, &tree[4..16], found, c);
    two(b, i + 2, &tree[16..], found, c)
}

// Up to four.
#[inline(always)]
fn few(b: Bounds, i: usize, k: usize, tree: &[i32], found: &mut [u16], c: usize) -> usize
    requires { Asked i k tree.now found.old c × (k ≤ 4) }
    ensures { Finds b i k tree.now found.old c found.new result }
{
    if k == 4 {
        return four(b, i, tree, found, c);
    }
    if k == 3 {
        return three(b, i, tree, found, c);
    }
    if k == 2 {
        return two(b, i, tree, found, c);
    }
    one(b, i, tree, found, c)
}

// Up to eight.
#[inline(always)]
fn several(b: Bounds, i: usize, k: usize, tree: &[i32], found: &mut [u16], c: usize) -> usize
    requires { Asked i k tree.now found.old c × (k ≤ 8) }
    ensures { Finds b i k tree.now found.old c found.new result }
{
    if k <= 4 {
        return few(b, i, k, tree, found, c);
    }
    let half = k / 2;
    let second = 8 * half;
    let c = few(b, i, half, &tree[4..second], found, c);
    few(b, i + half, k - half, &tree[second..], found, c)
}

// Up to sixteen.
fn leaves(b: Bounds, i: usize, k: usize, tree: &[i32], found: &mut [u16], c: usize) -> usize
    requires { Asked i k tree.now found.old c × (k ≤ 16) }
    ensures { Finds b i k tree.now found.old c found.new result }
{
    if k <= 8 {
        return several(b, i, k, tree, found, c);
    }
    let half = k / 2;
    let second = 8 * half;
    let c = several(b, i, half, &tree[4..second], found, c);
    several(b, i + half, k - half, &tree[second..], found, c)
}

// ---- the whole tree

// Of the k positions from i on. A part whose box shares no place with b is left out.
pub fn query(b: Bounds, i: usize, k: usize, tree: &[i32], found: &mut [u16], c: usize) -> usize
    requires { Asked i k tree.now found.old c }
    ensures { Finds b i k tree.now found.old c found.new result }
{
    if !b.shares(Bounds::read(tree)) {
        return c;
    }
    if k <= 16 {
        return leaves(b, i, k, tree, found, c);
    }
    let half = k / 2;
    let second = 8 * half;
    let c = query(b, i, half, &tree[4..second], found, c);
    query(b, i + half, k - half, &tree[second..], found, c)
}
