// Whether records name exactly the pairs of a ring's edges that meet, each once or twice. In time n² for n points: each record is marked at the place of its
// edges' positions, and then each two positions are asked once.
ghost use Rattle.std.specs.Prelude.{◌≡◌, ◌≢◌, true, false, List, ℕ, ◌-◌, ◌*◌, ◌≤◌, ◌<◌, length, get_or};
ghost use Rattle.algebra.specs.Ranges.{all_below};
ghost use Rattle.geometry.specs.Spots.{spots};
ghost use Rattle.index_edge.specs.Edge.{edge, lt_edge};
ghost use Rattle.index_edge.specs.Number.{edge_of};
ghost use Rattle.polygon.specs.Ring.{IsRing, Indexed};
ghost use Rattle.polygon.specs.Edges.{edge_at};
ghost use Rattle.intersection_set.specs.Store.{Rec, no_rec};
ghost use Rattle.intersection_set.specs.Lists.{head_place};
ghost use Rattle.machine.specs.Board.{Board, Distinct, meet_edges};
ghost use Rattle.resume.specs.Check.{names_all};
ghost use Rattle.audit.specs.Marks.{mark_place, StartsAt, StandsAt, PlaceOf, Marked, Unfit, MarksAll, SomeUnfit, agree};

use geometry::lent::Points;
use index_edge::{IndexEdge, PointId};
use intersection_set::intersection_set::IndexIntersection;
use polygon::polygon::{position_to_point_id, rebuild_index};
use polygon::position::{Position, PositionId};
use sweeps::edges::edge_at as edge_of_ring;
use sweeps::pair::Pair;
use sweeps::segment::Segment;

// ---- a record's edges on the ring

// The position of a point, where the edge is the one that starts there.
fn starts_at(ring: &[u16], index: &[u16], edge: IndexEdge, point: PointId) -> Option<PositionId>
    requires { Indexed (length ring.now) ring.now index.now × (length ring.now ≤ 256) }
    ensures { StartsAt (length ring.now) ring.now index.now (edge_of edge) point.0 result }
{
    let size = ring.len() as u16;
    if size <= point.0 {
        return None;
    }
    let id = PositionId(index[point.0 as usize]);
    let here = edge_of_ring(ring, Position { id, size });
    (here == edge).then_some(id)
}

// The position of an edge of the ring, or none where the ring has no such edge.
fn position_of(ring: &[u16], index: &[u16], edge: IndexEdge) -> Option<PositionId>
    requires { Indexed (length ring.now) ring.now index.now × (length ring.now ≤ 256) }
    ensures { StandsAt (length ring.now) ring.now (edge_of edge) result }
{
    let from_min = starts_at(ring, index, edge, edge.min);
    if from_min.is_some() {
        return from_min;
    }
    starts_at(ring, index, edge, edge.max)
}

// ---- marks

// Where the mark of the edges at two positions stands, the lesser first: as the head of an edge between points of these numbers would.
fn mark_place(n: usize, i: PositionId, j: PositionId) -> usize
    requires { (n ≤ 256) × (i.0 < j.0) × (j.0 < n) }
    ensures { result ≡ mark_place n i.0 j.0 }
{
    (j.0 as usize) + n * (i.0 as usize)
}

// The same of two positions in either order.
fn place_of_pair(n: usize, p: PositionId, q: PositionId) -> usize
    requires { (n ≤ 256) × (p.0 ≢ q.0) × (p.0 < n) × (q.0 < n) }
    ensures { result ≡ head_place n (edge p.0 q.0) }
{
    if p < q {
        mark_place(n, p, q)
    } else {
        mark_place(n, q, p)
    }
}

// A record names the smaller of its edges first.
fn in_order(isect: IndexIntersection) -> bool
    ensures { result ≡ lt_edge (edge_of isect.min) (edge_of isect.max) }
{
    isect.min < isect.max
}

// Where the mark of the pair stands that a record names; none where these are no two edges of the ring, the smaller first.
fn place_of_record(ring: &[u16], index: &[u16], isect: IndexIntersection) -> Option<usize>
    requires { let n = length ring.now in
        Indexed n ring.now index.now × (3 ≤ n) × (n ≤ 256) }
    ensures { PlaceOf (length ring.now) ring.now (edge_of isect.min) (edge_of isect.max) result }
{
    let p = position_of(ring, index, isect.min)?;
    let q = position_of(ring, index, isect.max)?;
    if !in_order(isect) {
        return None;
    }
    Some(place_of_pair(ring.len(), p, q))
}

// Marks the pair that a record names. Not so where it has no place, or is named a third time.
fn mark(ring: &[u16], index: &[u16], isect: IndexIntersection, table: &mut [u32]) -> bool
    requires { let n = length ring.now in
        Indexed n ring.now index.now × (3 ≤ n) × (n ≤ 256) × (n * (n - 1) ≤ length table.old) }
    ensures size { length table.new ≡ length table.old }
    ensures marked { result ≡ true → Marked (length ring.now) ring.now (edge_of isect.min) (edge_of isect.max) table.old table.new }
    ensures unfit { result ≡ false → Unfit (length ring.now) ring.now (edge_of isect.min) (edge_of isect.max) table.old }
{
    let Some(at) = place_of_record(ring, index, isect) else {
        return false;
    };
    if 2 <= table[at] {
        return false;
    }
    table[at] += 1;
    true
}

// Marks the pairs of all records. Not so where one of them does not fit.
fn mark_all<R: Fn(usize) -> IndexIntersection>(
    ring: &[u16],
    index: &[u16],
    count: usize,
    read: R,
    table: &mut [u32],
) -> bool
    ghost d: { List Rec }
    requires sized { let n = length ring.now in
        Indexed n ring.now index.now × (3 ≤ n) × (n ≤ 256) × (n * (n - 1) ≤ length table.old) }
    requires count { length d ≡ count }
    requires can { (k : ℕ) → k < count → R.pre read k }
    requires gives { (k : ℕ) (r : _) → k < count → R.post read k r → (edge_of r.min ≡ (get_or d k no_rec).e0) × (edge_of r.max ≡ (get_or d k no_rec).e1) }
    ensures marked { result ≡ true → MarksAll (length ring.now) ring.now d table.new }
    ensures unfit { result ≡ false → SomeUnfit (length ring.now) ring.now d }
{
    table.fill(0);
    for k in 0..count {
        if !mark(ring, index, read(k), table) {
            return false;
        }
    }
    true
}

// ---- marks against meetings

// The edges at two positions meet.
fn meet_at(points: Points<'_>, ring: &[u16], i: PositionId, j: PositionId) -> bool
    requires { IsRing points.n ring.now × Distinct points.n (spots points) × (3 ≤ points.n) × (i.0 < j.0) × (j.0 < points.n) }
    ensures { let n = points.entry.n in
        result ≡ meet_edges (spots points.entry) (edge_at n ring.now i.0) (edge_at n ring.now j.0) }
{
    let size = points.size();
    let here = Position { id: i, size };
    let there = Position { id: j, size };
    let a = Segment::new(points, edge_of_ring(ring, here));
    let from = a.see(position_to_point_id(ring, j));
    let to = a.see(position_to_point_id(ring, there.next().id));
    Pair { a, from, to }.compare().meets
}

// They are marked exactly if they do.
fn agrees(points: Points<'_>, ring: &[u16], table: &[u32], i: PositionId, j: PositionId) -> bool
    requires { IsRing points.n ring.now × Distinct points.n (spots points) × (3 ≤ points.n) × (points.n * (points.n - 1) ≤ length table.now) × (i.0 < j.0) × (j.0 < points.n) }
    ensures { result ≡ agree points.entry.n (spots points.entry) ring.now table.now i.0 j.0 }
{
    let marks = table[mark_place(points.n, i, j)];
    if meet_at(points, ring, i, j) {
        return 0 < marks;
    }
    marks == 0
}

// Those at a position and before it.
fn row_agrees(points: Points<'_>, ring: &[u16], table: &[u32], j: PositionId) -> bool
    requires { IsRing points.n ring.now × Distinct points.n (spots points) × (3 ≤ points.n) × (points.n * (points.n - 1) ≤ length table.now) × (j.0 < points.n) }
    ensures { result ≡ all_below j.0 (λ i. agree points.entry.n (spots points.entry) ring.now table.now i j.0) }
{
    (0..j.0).all(|i| agrees(points, ring, table, PositionId(i), j))
}

fn all_agree(points: Points<'_>, ring: &[u16], table: &[u32]) -> bool
    requires { IsRing points.n ring.now × Distinct points.n (spots points) × (3 ≤ points.n) × (points.n * (points.n - 1) ≤ length table.now) }
    ensures { let n = points.entry.n in
        result ≡ all_below n (λ j. all_below j (λ i. agree n (spots points.entry) ring.now table.now i j)) }
{
    (0..points.size()).all(|j| row_agrees(points, ring, table, PositionId(j)))
}

// The records name exactly the pairs of the ring's edges that meet, each once or twice.
pub fn name_exactly<R: Fn(usize) -> IndexIntersection>(
    points: Points<'_>,
    ring: &[u16],
    count: usize,
    read: R,
    table: &mut [u32],
) -> bool
    ghost d: { List Rec }
    requires sized { let n = points.n in
        IsRing n ring.now × Board n (spots points) × (n * (n - 1) ≤ length table.old) }
    requires count { length d ≡ count }
    requires can { (k : ℕ) → k < count → R.pre read k }
    requires gives { (k : ℕ) (r : _) → k < count → R.post read k r → (edge_of r.min ≡ (get_or d k no_rec).e0) × (edge_of r.max ≡ (get_or d k no_rec).e1) }
    ensures size { length table.new ≡ length table.old }
    ensures exact { result ≡ names_all points.entry.n (spots points.entry) ring.now d }
{
    let mut index = [0u16; 256];
    let index = &mut index[..ring.len()];
    rebuild_index(ring, index);
    mark_all(ring, index, count, read, table) && all_agree(points, ring, table)
}
