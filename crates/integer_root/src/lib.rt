// The integer root of any 64-bit number: no float, no table.
#![tactic(auto)]

ghost use Rattle.std.specs.Prelude.{◌≡◌, ◌+◌, ◌*◌, ◌≤◌, ◌<◌};
ghost use Rattle.integer_root.specs.Root.{root};

// A power of two above the root of v: one more bit for every two bits of v.
fn above(v: u64) -> u64
    ensures { (1 ≤ result) × (v < result * result) × (result ≤ 8589934592) }
{
    let mut x = 1u64;
    let mut rest = v;
    while 0 < rest {
        x *= 2;
        rest /= 4;
    }
    x
}

// Newton's step from a number that is not below the root: the mean of x and v / x is not below it either, and where it is no less than x,
// x is the root.
fn step(v: u64, x: u64) -> u64
    requires { (1 ≤ x) × (x ≤ 8589934592) × (v < (x + 1) * (x + 1)) }
    ensures { (v < (result + 1) * (result + 1)) × (x ≤ result → x * x ≤ v) }
{
    (x + v / x) / 2
}

// The greatest whole number whose square is at most v.
pub fn integer_root(v: u64) -> u64
    ensures { result ≡ root v }
{
    let mut x = above(v);
    while 0 < x {
        let y = step(v, x);
        if x <= y {
            return x;
        }
        x = y;
    }
    0
}
