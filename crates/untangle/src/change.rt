// What a move does to the ring (two_opt.rs, in `untangle`): the edges that it removes, those that it inserts, the new order, its tree.
ghost use Rattle.std.specs.Prelude.{◌≡◌, List, ℕ, ◌<◌, length, map};
ghost use Rattle.geometry.specs.Spots.{spots};
ghost use Rattle.index_edge.specs.Number.{edge_of};
ghost use Rattle.polygon.specs.Ring.{IsRing};
ghost use Rattle.polygon.specs.Place.{position};
ghost use Rattle.polygon.specs.Lent.{SameLoans};
ghost use Rattle.polygon.specs.Change.{cut, lay, turned, Fits};
ghost use Rattle.moves.specs.Plan.{plan_of};
ghost use Rattle.box_tree.specs.Tree.{ring_tree};
ghost use Rattle.untangle.specs.Few.{few_of};

use box_tree::tree::update;
use geometry::lent::Points;
use index_edge::IndexEdge;
use moves::plan::Move;
use polygon::polygon::Polygon;
use polygon::position::{Position, PositionId};
use sweeps::edges::{edge_at, edge_between};

// The edges that a move removes, or inserts: two for an uncrossing, three for a hoist.
#[derive(Clone, Copy, Debug, PartialEq, Eq)]
pub enum Few {
    Two([IndexEdge; 2]),
    Three([IndexEdge; 3]),
}

impl Few {
    pub fn as_slice(&self) -> &[IndexEdge]
        ensures { map edge_of result.now ≡ few_of self.now }
    {
        match self {
            Few::Two(edges) => edges,
            Few::Three(edges) => edges,
        }
    }
}

fn position_of(ring: &[u16], id: PositionId) -> Position
    requires { length ring.now < 65536 }
    ensures { result ≡ position (length ring.now) id.0 }
{
    Position {
        id,
        size: ring.len() as u16,
    }
}

// The edges that a move removes, in order. These and those that it inserts are read off the ring alone: no index is needed.
pub fn removed_edges(ring: &[u16], plan: Move) -> Few
    requires { IsRing (length ring.now) ring.now × (length ring.now < 65536) × Fits (length ring.now) (plan_of plan) }
    ensures { few_of result ≡ cut (length ring.now) (plan_of plan) ring.now }
{
    match plan {
        Move::Uncross { from, to } => Few::Two([
            edge_at(ring, position_of(ring, from)),
            edge_at(ring, position_of(ring, to)),
        ]),
        Move::Hoist { kink, edge } => {
            let kink = position_of(ring, kink);
            Few::Three([
                edge_at(ring, kink.prev()),
                edge_at(ring, kink),
                edge_at(ring, position_of(ring, edge)),
            ])
        }
    }
}

// The edges that it inserts, in order.
pub fn inserted_edges(ring: &[u16], plan: Move) -> Few
    requires { IsRing (length ring.now) ring.now × (length ring.now < 65536) × Fits (length ring.now) (plan_of plan) }
    ensures { few_of result ≡ lay (length ring.now) (plan_of plan) ring.now }
{
    match plan {
        Move::Uncross { from, to } => {
            let a = position_of(ring, from);
            let b = position_of(ring, to);
            Few::Two([
                edge_between(ring, a, b),
                edge_between(ring, a.next(), b.next()),
            ])
        }
        Move::Hoist { kink, edge } => {
            let kink = position_of(ring, kink);
            let edge = position_of(ring, edge);
            Few::Three([
                edge_between(ring, kink.prev(), kink.next()),
                edge_between(ring, edge, kink),
                edge_between(ring, kink, edge.next()),
            ])
        }
    }
}

// The ring and its index after it.
pub fn turn_ring(polygon: &mut Polygon<'_>, plan: Move)
    requires { Fits (length polygon.old.ring.now) (plan_of plan) }
    ensures same { SameLoans polygon.old polygon.new }
    ensures ring { polygon.new.ring.now ≡ turned (length polygon.old.ring.now) (plan_of plan) polygon.old.ring.now }
{
    match plan {
        Move::Uncross { from, to } => {
            let pt1 = polygon.position(from).next();
            polygon.vertices_reverse(pt1, polygon.position(to));
        }
        Move::Hoist { kink, edge } => {
            let pt1 = polygon.position(edge);
            polygon.vertices_join(pt1, polygon.position(kink));
        }
    }
}

// The tree of the ring after it: of the boxes only those on the stretch that it changed are made anew, and those of the nodes above.
pub fn turn_tree(points: Points<'_>, ring: &[u16], plan: Move, tree: &mut [i32])
    requires { let n = points.n in
        let m = plan_of plan in
        IsRing n ring.now × Fits n m × ((r : List ℕ) × (ring.now ≡ turned n m r) × (tree.old ≡ ring_tree n (spots points) r)) }
    ensures { tree.new ≡ ring_tree points.entry.n (spots points.entry) ring.now }
{
    match plan {
        Move::Uncross { from, to } => update(points, ring, from.0 as usize, to.0 as usize, tree),
        Move::Hoist { kink, edge } => update(points, ring, edge.0 as usize, kink.0 as usize, tree),
    }
}
