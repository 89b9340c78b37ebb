// An edge with what every ring edge that it is compared with asks of it. What is known of a ring point is carried on: each is read once for an edge.
ghost use Rattle.std.specs.Prelude.{◌≡◌};
ghost use Rattle.geometry.specs.Lent.{spot, points, Here};
ghost use Rattle.geometry.specs.Spots.{spots};
ghost use Rattle.index_edge.specs.Number.{edge_of};
ghost use Rattle.sweeps.specs.Spans.{Spans};

use geometry::lent::Points;
use geometry::orientation::turn_of;
use geometry::point::{NearPoint, Point};
use index_edge::{IndexEdge, PointId};

// An edge with the points where it ends, and the order keys of the lesser and the greater of them.
#[derive(Clone, Copy)]
pub struct Ends {
    pub edge: IndexEdge,
    pub min: NearPoint,
    pub max: NearPoint,
    pub low: i64,
    pub high: i64,
}

// The point of a number. Not over `Points`: the others need be neither there nor within the limits.
fn point_at(x: &[i32], y: &[i32], id: PointId) -> NearPoint
    requires { Here x.now y.now id.0 }
    ensures { spot result.point ≡ points x.now y.now id.0 }
{
    let i = id.0 as usize;
    let point = Point { x: x[i], y: y[i] };
    NearPoint { point }
}

// What an edge carries. Of x and y only its own two points are read.
pub fn segment_of(x: &[i32], y: &[i32], edge: IndexEdge) -> Ends
    requires { Here x.now y.now edge.min.0 × Here x.now y.now edge.max.0 }
    ensures { (result.edge ≡ edge) × Spans (points x.now y.now) (edge_of edge) (spot result.min.point) (spot result.max.point) result.low result.high }
{
    let min = point_at(x, y, edge.min);
    let max = point_at(x, y, edge.max);
    let low = min.min(max).order_key();
    let high = min.max(max).order_key();
    Ends {
        edge,
        min,
        max,
        low,
        high,
    }
}

// Such an edge between two of the points of a call.
#[derive(Clone, Copy)]
pub struct Segment<'a> {
    pub points: Points<'a>,
    pub edge: IndexEdge,
    pub min: NearPoint,
    pub max: NearPoint,
    pub low: i64,
    pub high: i64,
    pub ghost spans: { Spans (spots points) (edge_of edge) (spot min.point) (spot max.point) low high },
}

// A point by its number, its order key, and how an edge turns to it.
#[derive(Clone, Copy, Debug, PartialEq, Eq)]
pub struct Seen {
    pub id: PointId,
    pub key: i64,
    pub turn: i64,
}

impl<'a> Segment<'a> {
    ghost use Rattle.std.specs.Prelude.{◌≡◌, ◌<◌};
    ghost use Rattle.sweeps.specs.Sight.{Sees};

    pub fn new(points: Points<'a>, edge: IndexEdge) -> Segment<'a>
        requires { (edge.min.0 < points.n) × (edge.max.0 < points.n) }
        ensures { (result.points ≡ points.entry) × (result.edge ≡ edge) }
    {
        let Ends {
            edge,
            min,
            max,
            low,
            high,
        } = segment_of(points.x, points.y, edge);
        Segment {
            points,
            edge,
            min,
            max,
            low,
            high,
        }
    }

    // A point as the edge sees it.
    pub fn see(self, id: PointId) -> Seen
        requires { id.0 < self.points.n }
        ensures { Sees (spots self.entry.points) (edge_of self.entry.edge) id.0 result }
    {
        let v = self.points.at(id);
        Seen {
            id,
            key: v.order_key(),
            turn: turn_of(self.min, self.max, v),
        }
    }
}
