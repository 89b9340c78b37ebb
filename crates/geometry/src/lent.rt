// The points of a call.
ghost use Rattle.geometry.specs.Lent.{Lent};

use super::point::{NearPoint, Point};
use index_edge::PointId;

// The first n of the lent coordinates, all within the limits: point number i is at x[i], y[i].
#[derive(Clone, Copy)]
pub struct Points<'a> {
    pub n: usize,
    pub x: &'a [i32],
    pub y: &'a [i32],
    pub ghost lent: { Lent n x.now y.now },
}

impl<'a> Points<'a> {
    ghost use Rattle.std.specs.Prelude.{◌≡◌, ◌<◌};
    ghost use Rattle.geometry.specs.Lent.{spot};
    ghost use Rattle.geometry.specs.Spots.{spots};

    // How many there are.
    pub fn size(self) -> u16
        ensures { result ≡ self.entry.n }
    {
        self.n as u16
    }

    // The point of a number.
    pub fn at(self, id: PointId) -> NearPoint
        requires { id.0 < self.n }
        ensures { spot result.point ≡ spots self.entry id.0 }
    {
        let i = id.0 as usize;
        let point = Point {
            x: self.x[i],
            y: self.y[i],
        };
        NearPoint { point }
    }
}
