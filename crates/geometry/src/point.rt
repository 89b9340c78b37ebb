// A point (point.rs): its limits and its order.
ghost use Rattle.std.specs.Prelude.{◌≡◌, false, ◌≤◌, ◌-ℤ◌, pos, ◌+ℤ◌, ◌*ℤ◌, MatchResult};
ghost use Rattle.algebra.specs.Size.{abs};
ghost use Rattle.geometry.specs.Plane.{near, near_point};
ghost use Rattle.geometry.specs.Lent.{spot, InRange, order_key};

use refusal::Refusal;

// Points order by x, then y.
#[derive(Clone, Copy, Debug, PartialEq, Eq, PartialOrd, Ord)]
pub struct Point {
    pub x: i32,
    pub y: i32,
}

// A point within the limits.
#[derive(Clone, Copy, Debug, PartialEq, Eq, PartialOrd, Ord)]
pub struct NearPoint {
    pub point: Point,
    pub ghost near: { InRange (spot point) },
}

// A coordinate within ±1,000,000,000.
pub fn is_near(v: i32) -> bool
    ensures { result ≡ near v }
{
    (-1_000_000_000 <= v) & (v <= 1_000_000_000)
}

// a - b, in 64 bits.
pub fn gap(a: i32, b: i32) -> i64
    ensures { result ≡ a -ℤ b }
{
    i64::from(a) - i64::from(b)
}

// 2³² times x, and y: for coordinates within the limits it fits.
fn joined(x: i64, y: i64) -> i64
    requires { (abs x ≤ 1000000000) × (abs y ≤ 1000000000) }
    ensures { result ≡ x *ℤ pos 4294967296 +ℤ y }
{
    x * 4_294_967_296 + y
}

impl Point {
    pub fn is_in_range(self) -> bool
        ensures { result ≡ near_point (spot self) }
    {
        is_near(self.x) & is_near(self.y)
    }
}

impl TryFrom<Point> for NearPoint {
    type Error = Refusal;

    ghost use Rattle.refusal.specs.declared.Refusal.TheVariants.{OutOfRange};

    ghost try_from_gives = { λ p r. MatchResult r (λ q. q.point ≡ p) (λ e. (e ≡ OutOfRange) × (near_point (spot p) ≡ false)) };

    fn try_from(p: Point) -> Result<NearPoint, Refusal> {
        if !p.is_in_range() {
            return Err(Refusal::OutOfRange);
        }
        Ok(NearPoint { point: p })
    }
}

impl NearPoint {
    // A number that orders points within the limits as `<` does: both coordinates in one comparison.
    pub fn order_key(self) -> i64
        ensures { result ≡ order_key (spot self.point) }
    {
        joined(i64::from(self.point.x), i64::from(self.point.y))
    }
}
