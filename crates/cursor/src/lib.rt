// A ring position together with the ring it walks (polygon.rs, `Cursor`).
#![tactic(auto)]

ghost use Rattle.std.specs.Prelude.{◌≡◌, ◌<◌, length};
ghost use Rattle.polygon.specs.Ring.{at, next};
ghost use Rattle.polygon.specs.Place.{position as place};

use index_edge::PointId;
use polygon::polygon::position_to_point_id;
use polygon::position::Position;

#[derive(Clone, Copy)]
pub struct Cursor<'a> {
    pub ring: &'a [u16],
    pub position: Position,
}

impl<'a> Cursor<'a> {
    pub fn new(ring: &'a [u16], position: Position) -> Cursor<'a>
        ensures { (result.ring ≡ ring.entry) × (result.position ≡ position) }
    {
        Cursor { ring, position }
    }

    // The point at it.
    pub fn point_id(self) -> PointId
        requires { self.position.id.0 < length self.ring.now }
        ensures { result.0 ≡ at self.entry.ring.now self.entry.position.id.0 }
    {
        position_to_point_id(self.ring, self.position.id)
    }

    // One place on, from the last to the first.
    pub fn next(self) -> Cursor<'a>
        requires { self.position.id.0 < self.position.size }
        ensures { (result.ring ≡ self.entry.ring) × (result.position ≡ place self.entry.position.size (next self.entry.position.size self.entry.position.id.0)) }
    {
        Cursor {
            ring: self.ring,
            position: self.position.next(),
        }
    }
}

// The point after a position, for whoever has the ring and the position apart.
pub fn point_after(ring: &[u16], from: Position) -> PointId
    requires { (from.size ≡ length ring.now) × (from.id.0 < from.size) }
    ensures { result.0 ≡ at ring.now (next from.size from.id.0) }
{
    Cursor::new(ring, from).next().point_id()
}
