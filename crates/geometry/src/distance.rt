// How far apart two points are (point.rs).
ghost use Rattle.std.specs.Prelude.{◌≡◌, ◌+◌, ◌*◌, ◌≤◌};
ghost use Rattle.algebra.specs.Size.{abs};
ghost use Rattle.geometry.specs.Plane.{squared_distance};
ghost use Rattle.geometry.specs.Lent.{spot};

use super::point::{NearPoint, gap};

// Gaps of points within the limits are at most 2·10⁹, so that the squares and their sum fit.
fn squares(dx: i64, dy: i64) -> u64
    requires { (abs dx ≤ 2000000000) × (abs dy ≤ 2000000000) }
    ensures { result ≡ abs dx * abs dx + abs dy * abs dy }
{
    (dx * dx + dy * dy) as u64
}

// dx×dx + dy×dy, at most 8·10¹⁸.
pub fn squared_euclidean_distance(a: NearPoint, b: NearPoint) -> u64
    ensures { result ≡ squared_distance (spot a.point) (spot b.point) }
{
    let (a, b) = (a.point, b.point);
    squares(gap(a.x, b.x), gap(a.y, b.y))
}
