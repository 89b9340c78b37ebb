// The checks of a call, in order: what passes them has its points, what does not its refusal. None of them writes.
ghost use Rattle.std.specs.Prelude.{◌≡◌, false, ◌-◌, ◌*◌, ◌≤◌, length};
ghost use Rattle.geometry.specs.Spots.{spots};
ghost use Rattle.refusal.specs.Number.{refused};
ghost use Rattle.checks.specs.Checks.{any_below, short as is_short, late as late_checks};
ghost use Rattle.machine.specs.Answer.{too_many};

use super::start::{all_colinear, colinear_in_order, in_range, none_alike};
use geometry::lent::Points;
use polygon::polygon::each_once;
use refusal::Refusal;

// How many entries the buffers of the records need.
pub fn record_size(n: usize) -> usize
    requires { n ≤ 256 }
    ensures { result ≡ n * (n - 1) }
{
    n * n.saturating_sub(1)
}

fn any_below(size: usize, lengths: &[usize]) -> bool
    ensures { result ≡ any_below size lengths.now }
{
    match lengths {
        [] => false,
        [first, rest @ ..] => *first < size || any_below(size, rest),
    }
}

// Check 2, by the lengths of what is lent: buffers of n entries and buffers of records. With more than 256 points check 1 refuses first, and the answer is not
// asked for.
pub fn too_short(n: usize, of_points: &[usize], of_records: &[usize]) -> bool
    ensures { n ≤ 256 → result ≡ is_short n of_points.now of_records.now }
{
    256 < n || any_below(n, of_points) || any_below(record_size(n), of_records)
}

// Check 19: more picks than keep every age a 32-bit number.
pub fn too_many(picks: &[u32]) -> bool
    ensures { result ≡ too_many picks.now }
{
    1_000_000 < picks.len()
}

// Checks 5 and 6.
fn late(points: Points<'_>) -> Result<(), Refusal>
    ensures { refused result ≡ late_checks points.entry.n (spots points.entry) }
{
    if !none_alike(points) {
        return Err(Refusal::EqualPoints);
    }
    if points.n < 3 {
        return Err(Refusal::FewPoints);
    }
    Ok(())
}

// What a call gives of its points, before any check: so many, where they stand, whether some buffer is too short (check 2), and whether there are too many
// picks (check 19).
#[derive(Clone, Copy)]
pub struct Given<'a> {
    pub n: usize,
    pub x: &'a [i32],
    pub y: &'a [i32],
    pub short: bool,
    pub many: bool,
    pub ghost long: { n ≤ 256 → short ≡ false → (n ≤ length x.now) × (n ≤ length y.now) },
}

impl<'a> Given<'a> {
    ghost use Rattle.std.specs.Prelude.{take, IfOk};
    ghost use Rattle.algebra.specs.Ranges.{up_from};
    ghost use Rattle.geometry.specs.Lent.{points};
    ghost use Rattle.machine.specs.Answer.{refusal};
    ghost use Rattle.refusal.specs.Number.{refused};
    ghost use Rattle.checks.specs.Checks.{early as early_checks, first_four, first_six, WithRing, Of};

    // A call that is lent points and a ring to be read, and no picks.
    pub fn with_ring(n: usize, x: &'a [i32], y: &'a [i32], ring: &[u16]) -> Given<'a>
        ensures { WithRing n x.entry y.entry ring.now result.n result.x result.y result.short result.many }
    {
        let short = too_short(n, &[x.len(), y.len(), ring.len()], &[]);
        let many = false;
        Given {
            n,
            x,
            y,
            short,
            many,
        }
    }

    // Checks 1, 2, 19 and 3.
    fn early(self) -> Result<Points<'a>, Refusal>
        ensures number { refused result ≡ early_checks self.entry.n (points self.entry.x.now self.entry.y.now) self.entry.short self.entry.many }
        ensures passed { IfOk result (Of self.entry.n self.entry.x self.entry.y) }
    {
        let Given {
            n,
            x,
            y,
            short,
            many,
        } = self;
        if 256 < n {
            return Err(Refusal::ManyPoints);
        }
        if short {
            return Err(Refusal::ShortBuffer);
        }
        if many {
            return Err(Refusal::ManyPicks);
        }
        if !in_range(n, x, y) {
            return Err(Refusal::OutOfRange);
        }
        Ok(Points { n, x, y })
    }

    // Checks 1, 2, 19, 3 and 4, of the first n entries of a lent ring.
    pub fn first_four(self, ring: &[u16]) -> Result<Points<'a>, Refusal>
        requires { self.n ≤ 256 → self.short ≡ false → self.n ≤ length ring.now }
        ensures number { refused result ≡ first_four self.entry.n (points self.entry.x.now self.entry.y.now) self.entry.short self.entry.many (take self.entry.n ring.now) }
        ensures passed { IfOk result (Of self.entry.n self.entry.x self.entry.y) }
    {
        let points = self.early()?;
        if !each_once(&ring[..self.n]) {
            return Err(Refusal::NoRing);
        }
        Ok(points)
    }

    // These and checks 5 and 6.
    pub fn first_six(self, ring: &[u16]) -> Result<Points<'a>, Refusal>
        requires { self.n ≤ 256 → self.short ≡ false → self.n ≤ length ring.now }
        ensures number { refused result ≡ first_six self.entry.n (points self.entry.x.now self.entry.y.now) self.entry.short self.entry.many (take self.entry.n ring.now) }
        ensures passed { IfOk result (Of self.entry.n self.entry.x self.entry.y) }
    {
        let points = self.first_four(ring)?;
        late(points)?;
        Ok(points)
    }

    // All checks of a start from the points in their own order. Not one with `check_ring`: no ring is written before they are through, so there is none to ask.
    pub fn check_in_order(self) -> Result<Points<'a>, Refusal>
        ensures number { refused result ≡ refusal self.entry.n (points self.entry.x.now self.entry.y.now) self.entry.short self.entry.many (up_from 0 self.entry.n) }
        ensures passed { IfOk result (Of self.entry.n self.entry.x self.entry.y) }
    {
        let points = self.early()?;
        late(points)?;
        if colinear_in_order(points) {
            return Err(Refusal::OneLine);
        }
        Ok(points)
    }

    // The same for a start from the first n entries of a lent ring.
    pub fn check_ring(self, ring: &[u16]) -> Result<Points<'a>, Refusal>
        requires { self.n ≤ 256 → self.short ≡ false → self.n ≤ length ring.now }
        ensures number { refused result ≡ refusal self.entry.n (points self.entry.x.now self.entry.y.now) self.entry.short self.entry.many (take self.entry.n ring.now) }
        ensures passed { IfOk result (Of self.entry.n self.entry.x self.entry.y) }
    {
        let points = self.first_six(ring)?;
        if all_colinear(points, &ring[..self.n]) {
            return Err(Refusal::OneLine);
        }
        Ok(points)
    }
}
