// The run of an edge (two_opt.rs, `linear_extremes`): it stretches back and on past collinear vertices to a corner.
ghost use Rattle.std.specs.Prelude.{◌≡◌, ◌<◌};
ghost use Rattle.polygon.specs.Place.{position};
ghost use Rattle.polygon.specs.Ring.{dist};
ghost use Rattle.moves.specs.Walk.{ring_of, place_of, point_of, Moved};
ghost use Rattle.moves.specs.Runs.{step, opposite, corner, run_from};

use super::vertex::Vertex;
use geometry::orientation::is_colinear;
use polygon::position::Position;

// A stretch of the ring: where it starts, and how many edges it has.
#[derive(Clone, Copy, Debug, PartialEq, Eq)]
pub struct Run {
    pub from: Position,
    pub edges: u16,
}

// Which way a walk goes.
#[derive(Clone, Copy, Debug, PartialEq, Eq)]
pub enum Direction {
    Back,
    On,
}

impl Direction {
    fn opposite(self) -> Direction
        ensures { result ≡ opposite self }
    {
        match self {
            Direction::Back => Direction::On,
            Direction::On => Direction::Back,
        }
    }

    // The place beside a vertex.
    fn step(self, at: Vertex<'_>) -> Vertex<'_>
        ensures { Moved at.entry (step self at.entry.points.n (place_of at.entry)) result }
    {
        match self {
            Direction::Back => at.prev(),
            Direction::On => at.next(),
        }
    }
}

// From a vertex to a corner. A walk of as many steps as there are points has met one, unless all points are on one line. Each point is read once.
fn corner(start: Vertex<'_>, way: Direction) -> Position
    ensures { result ≡ position start.entry.points.n (corner way start.entry.points.n (point_of start.entry) start.entry.points.n (ring_of start.entry) (place_of start.entry)) }
{
    let mut at = start;
    let mut behind = way.opposite().step(start).point();
    let mut here = start.point();
    for _ in 0..start.points.n {
        let next = way.step(at);
        let ahead = next.point();
        if !is_colinear(behind, here, ahead) {
            return at.cursor.position;
        }
        behind = here;
        here = ahead;
        at = next;
    }
    at.cursor.position
}

// How many places on from one position is another.
pub fn distance(from: Position, to: Position) -> u16
    requires { (from.id.0 < from.size) × (to.id.0 < from.size) }
    ensures { result ≡ dist from.size from.id.0 to.id.0 }
{
    let p = from.id.0;
    let i = to.id.0;
    if p <= i { i - p } else { i + (from.size - p) }
}

// The run of the edge that starts at a vertex.
// For example, in a ring that bends at b and e only:
//    a                    f
//     \- b - c - d -> e -/
// the run of c is that from b to e.
pub fn linear_extremes(at: Vertex<'_>) -> Run
    ensures { result ≡ run_from at.entry.points.n (point_of at.entry) (ring_of at.entry) (place_of at.entry) }
{
    let min = corner(at, Direction::Back);
    let max = corner(at.next(), Direction::On);
    Run {
        from: min,
        edges: distance(min, max),
    }
}
