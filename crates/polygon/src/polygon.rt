// The ring and its position index (polygon.rs).
//
// `ring` and `index` are lent with exactly one entry for each point: a caller whose buffers are longer lends `&mut ring[..n]`,
// so that no entry past n can be read or written here.
ghost use Rattle.std.specs.Prelude.{◌≡◌, ◌+◌, ◌<◌, ◌≤◌, length};
ghost use Rattle.algebra.specs.Ranges.{up_from};
ghost use Rattle.index_edge.specs.Number.{edge_of};
ghost use Rattle.polygon.specs.Ring.{at, swap, reversed, joined, turned_round, index_of, IsRing, Indexed, IndexedBut, first_fault, each_once};
ghost use Rattle.polygon.specs.Edges.{direct};
ghost use Rattle.polygon.specs.Place.{position, ApartOn, fault_of};

use crate::position::{Position, PositionId};
use index_edge::{IndexEdge, PointId};

// ---- reading the ring

// The point at a position.
pub fn position_to_point_id(ring: &[u16], position: PositionId) -> PointId
    requires { position.0 < length ring.now }
    ensures { result.0 ≡ at ring.now position.0 }
{
    PointId(ring[position.0 as usize])
}

// Where a ring is wrong: the first position whose entry is no point's number or names a point again; none where each point is named once.
// It is one pass. What was seen is marked by value, since nothing lent may be written before the checks are through.
// A ring of more than 256 entries does not come here: check 1 refuses it.
#[tactic(auto, using(crate::proofs::FirstFault::pass_steps))]
pub fn first_fault(ring: &[u16]) -> Option<PositionId>
    requires { length ring.now ≤ 256 }
    ensures { fault_of result ≡ first_fault (length ring.now) ring.now }
{
    let mut seen = [false; 256];
    for (i, entry) in ring.iter().enumerate() {
        let here = PositionId(i as u16);
        let point = *entry as usize;
        if point >= ring.len() {
            return Some(here);
        }
        if seen[point] {
            return Some(here);
        }
        seen[point] = true;
    }
    None
}

// The ring names each point once (check 4).
pub fn each_once(ring: &[u16]) -> bool
    requires { length ring.now ≤ 256 }
    ensures { result ≡ each_once (length ring.now) ring.now }
{
    first_fault(ring).is_none()
}

// ---- what is written in ring and index
//
// Over the slices and not over a `Polygon`: between the two writes the index is not the ring's.

// 0, 1, 2, ..
#[tactic(auto, using(crate::proofs::Index::counted))]
fn count(list: &mut [u16])
    requires { length list.old < 65536 }
    ensures { list.new ≡ up_from 0 (length list.old) }
{
    for (i, entry) in list.iter_mut().enumerate() {
        *entry = i as u16;
    }
}

// The index entries of the points at the positions from `from` on and before `to`. What stood in them is not read.
fn index_part(ring: &[u16], index: &mut [u16], from: usize, to: usize)
    requires { IndexedBut (length ring.now) ring.now index.old from to × (length ring.now < 65536) × (from ≤ to) × (to ≤ length ring.now) }
    ensures { Indexed (length ring.now) ring.now index.new }
{
    for i in from..to {
        index[ring[i] as usize] = i as u16;
    }
}

// The points at two positions change places, and the index with them. Its two entries are written: by the library's `swap` of them, which asks which of two
// places comes first, a reversal took three times as long.
fn swap_points(ring: &mut [u16], index: &mut [u16], pa: PositionId, pb: PositionId)
    requires { Indexed (length ring.old) ring.old index.old × (pa.0 < length ring.old) × (pb.0 < length ring.old) }
    ensures ring { ring.new ≡ swap ring.old pa.0 pb.0 }
    ensures indexed { Indexed (length ring.new) ring.new index.new }
{
    let a = pa.0 as usize;
    let b = pb.0 as usize;
    index[ring[a] as usize] = pb.0;
    index[ring[b] as usize] = pa.0;
    ring.swap(a, b);
}

// A stretch that does not wrap: only that part of the ring is lent on, and the index follows it.
#[tactic(auto, using(crate::proofs::Reverser::part_reversed, crate::proofs::Reverser::outside_indexed))]
fn reverse_part(ring: &mut [u16], index: &mut [u16], pt1: PositionId, pt2: PositionId)
    requires { Indexed (length ring.old) ring.old index.old × (length ring.old < 65536) × (pt1.0 < pt2.0) × (pt2.0 < length ring.old) }
    ensures ring { ring.new ≡ reversed (length ring.old) ring.old pt1.0 pt2.0 }
    ensures indexed { Indexed (length ring.new) ring.new index.new }
{
    let first = pt1.0 as usize;
    let end = pt2.0 as usize + 1;
    let part = &mut ring[first..end];
    part.reverse();
    index_part(ring, index, first, end);
}

// ---- a start

// The index made from the ring. What stood in it is not read.
#[tactic(auto, using(crate::proofs::Index::index_is))]
pub fn rebuild_index(ring: &[u16], index: &mut [u16])
    requires { IsRing (length ring.now) ring.now × (length ring.now < 65536) × (length index.old ≡ length ring.now) }
    ensures { index.new ≡ index_of (length ring.now) ring.now }
{
    index_part(ring, index, 0, ring.len());
}

// The points in their own order, 0, 1, 2, ..
pub fn identity(ring: &mut [u16], index: &mut [u16])
    requires { (length ring.old < 65536) × (length index.old ≡ length ring.old) }
    ensures ring { ring.new ≡ up_from 0 (length ring.old) }
    ensures index { index.new ≡ up_from 0 (length ring.old) }
{
    count(ring);
    count(index);
}

// ---- ring and index together

// The position of a point, on a ring of that size.
fn point_id_to_position(index: &[u16], size: u16, point: PointId) -> Position
    requires { point.0 < length index.now }
    ensures { result ≡ position size (at index.now point.0) }
{
    Position {
        id: PositionId(index[point.0 as usize]),
        size,
    }
}

// The position at which an edge of the ring starts, found by the index: with it the edge has a direction.
#[tactic(auto, using(crate::proofs::Index::directing))]
pub fn direct(ring: &[u16], index: &[u16], edge: IndexEdge) -> PositionId
    requires { Indexed (length ring.now) ring.now index.now × (length ring.now < 65536) × (edge.min.0 < length ring.now) × (edge.max.0 < length ring.now) }
    ensures { result.0 ≡ direct (length ring.now) ring.now (edge_of edge) }
{
    let size = ring.len() as u16;
    let min = point_id_to_position(index, size, edge.min);
    let max = point_id_to_position(index, size, edge.max);
    if min.next().id == max.id {
        min.id
    } else {
        max.id
    }
}

// A ring with its position index, as they were lent.
#[derive(Drop)]
pub struct Polygon<'a> {
    pub ring: &'a mut [u16],
    pub index: &'a mut [u16],
    ghost indexed: { Indexed (length ring.now) ring.now index.now },
    ghost short: { length ring.now < 65536 },
}

impl<'a> Polygon<'a> {
    ghost use Rattle.polygon.specs.Lent.{Lends, SameLoans};

    // The ring alone.
    pub fn as_slice(&self) -> &[u16]
        ensures { result.now ≡ self.now.ring.now }
    {
        self.ring
    }

    // A position with the size of the ring.
    pub fn position(&self, id: PositionId) -> Position
        ensures { result ≡ position (length self.now.ring.now) id.0 }
    {
        Position {
            id,
            size: self.ring.len() as u16,
        }
    }

    // The position at which an edge of the ring starts.
    pub fn direct(&self, edge: IndexEdge) -> Position
        requires { (edge.min.0 < length self.now.ring.now) × (edge.max.0 < length self.now.ring.now) }
        ensures { result ≡ position (length self.now.ring.now) (direct (length self.now.ring.now) self.now.ring.now (edge_of edge)) }
    {
        self.position(direct(self.ring, self.index, edge))
    }

    // Two points change places, and the index with them.
    fn swap_positions(&mut self, pa: Position, pb: Position)
        requires { ApartOn self.old.ring.now pa pb }
        ensures same { SameLoans self.old self.new }
        ensures ring { self.new.ring.now ≡ swap self.old.ring.now pa.id.0 pb.id.0 }
    {
        swap_points(self.ring, self.index, pa.id, pb.id);
    }

    // A stretch that may wrap: its ends are swapped, from the outside in. As in the Rust it is their meeting that ends it, not a count.
    #[tactic(auto, using(crate::proofs::PositionLoops::reversing_steps))]
    fn reverse_around(&mut self, mut pt1: Position, mut pt2: Position)
        requires { ApartOn self.old.ring.now pt1 pt2 }
        ensures same { SameLoans self.old self.new }
        ensures ring { self.new.ring.now ≡ reversed (length self.old.ring.now) self.old.ring.now pt1.id.0 pt2.id.0 }
    {
        loop {
            self.swap_positions(pt1, pt2);
            pt1 = pt1.next();
            if pt1.id == pt2.id {
                return;
            }
            pt2 = pt2.prev();
            if pt1.id == pt2.id {
                return;
            }
        }
    }

    // Reverses all points from pt1 on to pt2, both included.
    // For example: pt1, a, b, c, pt2 =>
    //              pt2, c, b, a, pt1
    pub fn vertices_reverse(&mut self, pt1: Position, pt2: Position)
        requires { ApartOn self.old.ring.now pt1 pt2 }
        ensures same { SameLoans self.old self.new }
        ensures ring { self.new.ring.now ≡ reversed (length self.old.ring.now) self.old.ring.now pt1.id.0 pt2.id.0 }
    {
        if pt1.id < pt2.id {
            reverse_part(self.ring, self.index, pt1.id, pt2.id);
        } else {
            self.reverse_around(pt1, pt2);
        }
    }

    // Moves the point at pt2 back until it stands right behind the one at pt1. As in the Rust it is their meeting that ends it, not a count.
    #[tactic(auto, using(crate::proofs::PositionLoops::coming_steps))]
    pub fn vertices_join(&mut self, pt1: Position, mut pt2: Position)
        requires { ApartOn self.old.ring.now pt1 pt2 }
        ensures same { SameLoans self.old self.new }
        ensures ring { self.new.ring.now ≡ joined (length self.old.ring.now) self.old.ring.now pt1.id.0 pt2.id.0 }
    {
        loop {
            let prev = pt2.prev();
            if prev.id == pt1.id {
                return;
            }
            self.swap_positions(prev, pt2);
            pt2 = prev;
        }
    }

    // The whole loop reversed: from position 0 to the last.
    pub fn turn_round(&mut self)
        requires { 2 ≤ length self.old.ring.now }
        ensures same { SameLoans self.old self.new }
        ensures ring { self.new.ring.now ≡ turned_round (length self.old.ring.now) self.old.ring.now }
    {
        let root_position = self.position(PositionId(0));
        self.vertices_reverse(root_position, root_position.prev());
    }
}
