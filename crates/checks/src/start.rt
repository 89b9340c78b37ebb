// What the checks ask of points and ring, and the way round a ring.
ghost use Rattle.std.specs.Prelude.{◌≡◌, List, ℕ, ◌-◌, ◌≤◌, ◌<◌, length};
ghost use Rattle.algebra.specs.Ranges.{all_below, up_from};
ghost use Rattle.geometry.specs.Lent.{points};
ghost use Rattle.geometry.specs.Spots.{spots};
ghost use Rattle.polygon.specs.Place.{position};
ghost use Rattle.polygon.specs.Ring.{IsRing};
ghost use Rattle.machine.specs.Board.{turn_at, is_straight_line};
ghost use Rattle.machine.specs.Answer.{in_range, new_point, none_alike, least_to, clockwise, counter_clockwise};
ghost use Rattle.moves.specs.Walk.{ring_of, point_of, On};
ghost use Rattle.checks.specs.Least.{lesser_at};
ghost use Rattle.checks.specs.Told.{Names, Tells};

use geometry::lent::Points;
use geometry::orientation;
use geometry::point::Point;
use index_edge::PointId;
use moves::vertex::Vertex;
use polygon::polygon::position_to_point_id;
use polygon::position::{Position, PositionId};

// Check 3: every coordinate is within the limits.
pub fn in_range(n: usize, x: &[i32], y: &[i32]) -> bool
    requires { (n ≤ length x.now) × (n ≤ length y.now) }
    ensures { result ≡ in_range n (points x.now y.now) }
{
    (0..n).all(|i| Point { x: x[i], y: y[i] }.is_in_range())
}

// A point is none of those before it.
fn is_new(points: Points<'_>, id: PointId) -> bool
    requires { id.0 < points.n }
    ensures { result ≡ new_point (spots points.entry) id.0 }
{
    let point = points.at(id).point;
    (0..id.0).all(|j| points.at(PointId(j)).point != point)
}

// Check 5: no point equals an earlier one.
pub fn none_alike(points: Points<'_>) -> bool
    ensures { result ≡ none_alike points.entry.n (spots points.entry) }
{
    (0..points.size()).all(|i| is_new(points, PointId(i)))
}

// The point at a position is collinear with those before and after it. `point_id` answers whose point stands at a position.
fn is_colinear<F: Fn(PositionId) -> PointId>(
    points: Points<'_>,
    here: Position,
    point_id: &F,
) -> bool
    requires here { (here.size ≡ points.n) × (here.id.0 < points.n) }
    requires names { Names points.n (F.pre point_id.now) (F.post point_id.now) }
    ensures { (ring : List ℕ) → Tells points.entry.n (F.post point_id.entry.now) ring → result ≡ is_straight_line points.entry.n (spots points.entry) ring here.id.0 }
{
    let before = points.at(point_id(here.prev().id));
    let point = points.at(point_id(here.id));
    let after = points.at(point_id(here.next().id));
    orientation::is_colinear(before, point, after)
}

// So is every point: one walk for the points in their own order and for those of a lent ring.
fn each_colinear<F: Fn(PositionId) -> PointId>(points: Points<'_>, point_id: F) -> bool
    requires { Names points.n (F.pre point_id) (F.post point_id) }
    ensures { (ring : List ℕ) → Tells points.entry.n (F.post point_id) ring → result ≡ all_below points.entry.n (is_straight_line points.entry.n (spots points.entry) ring) }
{
    let size = points.size();
    (0..size).all(|i| {
        let id = PositionId(i);
        is_colinear(points, Position { id, size }, &point_id)
    })
}

// Check 7 for the points in their own order, with no ring lent.
#[tactic(auto, using(crate::proofs::Checking::in_order_told))]
pub fn colinear_in_order(points: Points<'_>) -> bool
    ensures { result ≡ all_below points.entry.n (is_straight_line points.entry.n (spots points.entry) (up_from 0 points.entry.n)) }
{
    each_colinear(points, |position| PointId(position.0))
}

// Check 7: every vertex is collinear with its neighbours.
pub fn all_colinear(points: Points<'_>, ring: &[u16]) -> bool
    requires { IsRing points.n ring.now }
    ensures { result ≡ all_below points.entry.n (is_straight_line points.entry.n (spots points.entry) ring.now) }
{
    each_colinear(points, |position| position_to_point_id(ring, position))
}

// Of two positions, that of the lesser point. `on` stands somewhere on the ring.
fn lesser_at(on: Vertex<'_>, i: Position, j: Position) -> Position
    requires { On on i × On on j }
    ensures { result ≡ position on.entry.points.n (lesser_at (point_of on.entry) (ring_of on.entry) i.id.0 j.id.0) }
{
    if on.at(i).point() < on.at(j).point() {
        i
    } else {
        j
    }
}

// The position of the least point. A `for`, since at a `fold` it would have to be shown for each turn that the least so far is a position of the ring.
fn least_at(on: Vertex<'_>) -> Position
    ensures { result ≡ position on.entry.points.n (least_to on.entry.points.n (point_of on.entry) (ring_of on.entry) (on.entry.points.n - 1)) }
{
    let size = on.points.size();
    let mut least = Position {
        id: PositionId(0),
        size,
    };
    for i in 1..size {
        let id = PositionId(i);
        least = lesser_at(on, Position { id, size }, least);
    }
    least
}

// How the ring turns at its least point.
fn least_turn(points: Points<'_>, ring: &[u16]) -> i64
    requires { IsRing points.n ring.now × (0 < points.n) }
    ensures { let n = points.entry.n in
        let pt = spots points.entry in
        result ≡ turn_at n pt ring.now (least_to n pt ring.now (n - 1)) }
{
    let first = Position {
        id: PositionId(0),
        size: points.size(),
    };
    let on = Vertex::new(points, ring, first);
    on.at(least_at(on)).orientation()
}

// The least point of the ring turns clockwise.
pub fn is_clockwise(points: Points<'_>, ring: &[u16]) -> bool
    requires { IsRing points.n ring.now × (0 < points.n) }
    ensures { result ≡ clockwise points.entry.n (spots points.entry) ring.now }
{
    least_turn(points, ring) < 0
}

// It turns counter-clockwise. Where all points lie on one line it does neither.
pub fn is_counter_clockwise(points: Points<'_>, ring: &[u16]) -> bool
    requires { IsRing points.n ring.now × (0 < points.n) }
    ensures { result ≡ counter_clockwise points.entry.n (spots points.entry) ring.now }
{
    0 < least_turn(points, ring)
}
