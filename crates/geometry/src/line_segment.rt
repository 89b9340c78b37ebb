// Segments (line_segment.rs): what a segment contains, and how two segments meet.
ghost use Rattle.std.specs.Prelude.{◌≡◌, ◌≤◌, ◌+ℤ◌, ◌-ℤ◌, ◌&&◌, ◌||◌, false, Some};
ghost use Rattle.std.specs.Int.Signed.{lt_z};
ghost use Rattle.algebra.specs.Size.{abs};
ghost use Rattle.geometry.specs.Plane.{turn, is_zero};
ghost use Rattle.geometry.specs.Segment.{is_open, admits, between, contains, inside, same_side, shared, overlap};
ghost use Rattle.geometry.specs.Contact.{start_of, stop_of, mark_at, overlap_of, kind, some_contact};
ghost use Rattle.geometry.specs.Lent.{spot, InRange};
ghost use Rattle.geometry.specs.Answers.{told, end_of, mark_of, kind_of, without_ends, contact_of, containment, meeting, contact};

use super::orientation::{is_colinear, turn_of};
use super::point::{NearPoint, Point};
use refusal::Refusal;

// An end of a segment: an open one is itself left out.
#[derive(Clone, Copy, Debug, PartialEq, Eq)]
pub enum EndPoint {
    Exclusive(Point),
    Inclusive(Point),
}

#[derive(Clone, Copy, Debug, PartialEq, Eq)]
pub struct LineSegment {
    pub min: EndPoint,
    pub max: EndPoint,
}

// How two segments meet elsewhere than in an end of both, if they do: in one place, or along a part, which goes from `min` to `max`.
#[derive(Clone, Copy, Debug, PartialEq, Eq)]
pub enum ILineSegment {
    Crossing,
    Overlap(LineSegment),
}

// The same without that part, which a hot loop does not read.
#[derive(Clone, Copy, Debug, PartialEq, Eq)]
pub enum ContactKind {
    Crossing,
    Overlap,
}

impl EndPoint {
    pub fn inner(self) -> Point
        ensures { spot result ≡ end_of self }
    {
        match self {
            EndPoint::Exclusive(p) => p,
            EndPoint::Inclusive(p) => p,
        }
    }

    fn is_open(self) -> bool
        ensures { result ≡ is_open (mark_of self) }
    {
        matches!(self, EndPoint::Exclusive(_))
    }

    // An open end leaves itself out.
    fn admits(self, p: Point) -> bool
        ensures { result ≡ admits (mark_of self) (end_of self) (spot p) }
    {
        self != EndPoint::Exclusive(p)
    }
}

// ---- contains

fn between(a: Point, b: Point, p: Point) -> bool
    ensures { result ≡ between (spot a) (spot b) (spot p) }
{
    !(p < a.min(b)) & !(a.max(b) < p)
}

impl LineSegment {
    // Whether p lies on the segment, an open end left out (`LineSegmentView::contains`).
    pub fn contains(self, p: Point) -> Result<bool, Refusal>
        ensures { told result ≡ containment (end_of self.min) (mark_of self.min) (end_of self.max) (mark_of self.max) (spot p) }
    {
        let a = NearPoint::try_from(self.min.inner())?;
        let b = NearPoint::try_from(self.max.inner())?;
        let v = NearPoint::try_from(p)?;
        if a == b {
            return Err(Refusal::OutOfRange);
        }
        let is_admitted = self.min.admits(p) & self.max.admits(p);
        Ok(is_colinear(a, b, v) & (between(a.point, b.point, p) & is_admitted))
    }
}

// ---- strictly inside

// v lies strictly between a and b, in either direction.
fn keys_between(a: i64, b: i64, v: i64) -> bool
    ensures { result ≡ ((lt_z a v && lt_z v b) || (lt_z b v && lt_z v a)) }
{
    ((a < v) & (v < b)) | ((b < v) & (v < a))
}

pub fn is_inside(a: NearPoint, b: NearPoint, v: NearPoint) -> bool
    ensures { result ≡ inside (spot a.point) (spot b.point) (spot v.point) }
{
    // The order is asked first: it takes no product, and seldom holds.
    if !keys_between(a.order_key(), b.order_key(), v.order_key()) {
        return false;
    }
    is_colinear(a, b, v)
}

// ---- how two segments meet

// Both strictly on one side.
pub fn same_side(p: i64, q: i64) -> bool
    ensures { result ≡ same_side p q }
{
    ((0 < p) & (0 < q)) | ((p < 0) & (q < 0))
}

// The part that two segments on one line have in common goes from the greater of their starts to the lesser of their ends. Here and below a segment is
// its two points: the marks that a `LineSegment` carries play no part.
fn overlap_start(a: Point, b: Point, c: Point, d: Point) -> Point
    ensures { spot result ≡ start_of (spot a) (spot b) (spot c) (spot d) }
{
    a.min(b).max(c.min(d))
}

fn overlap_end(a: Point, b: Point, c: Point, d: Point) -> Point
    ensures { spot result ≡ stop_of (spot a) (spot b) (spot c) (spot d) }
{
    a.max(b).min(c.max(d))
}

// Two segments on one line have more than an end in common.
fn overlap(a: Point, b: Point, c: Point, d: Point) -> bool
    ensures { result ≡ overlap (spot a) (spot b) (spot c) (spot d) }
{
    overlap_start(a, b, c, d) < overlap_end(a, b, c, d)
}

fn share(a: Point, b: Point, c: Point, d: Point) -> bool
    ensures { result ≡ shared (spot a) (spot b) (spot c) (spot d) }
{
    ((a == c) | (a == d)) | ((b == c) | (b == d))
}

// The fourth turn of two segments, by the other three.
fn fourth(p: i64, q: i64, r: i64) -> i64
    requires { (abs (p -ℤ q) ≤ 8000000000000000000) × (abs (r +ℤ (p -ℤ q)) ≤ 8000000000000000000) }
    ensures { result ≡ r +ℤ (p -ℤ q) }
{
    r + (p - q)
}

// The rule, where the turns p and q of a, b to c and d are known, and whether an end is shared. On one line the order of the ends
// decides, else the sides on which they lie: then segments that share an end meet nowhere else.
#[inline]
fn contact_by_turns(
    a: NearPoint,
    b: NearPoint,
    c: NearPoint,
    d: NearPoint,
    p: i64,
    q: i64,
    share: bool,
) -> Option<ContactKind>
    requires { (p ≡ turn (spot a.point) (spot b.point) (spot c.point)) × (q ≡ turn (spot a.point) (spot b.point) (spot d.point)) × (share ≡ shared (spot a.point) (spot b.point) (spot c.point) (spot d.point)) }
    ensures { result ≡ without_ends (kind (spot a.point) (spot b.point) (spot c.point) (spot d.point)) }
{
    if (p == 0) & (q == 0) {
        return overlap(a.point, b.point, c.point, d.point).then_some(ContactKind::Overlap);
    }
    let r = turn_of(c, d, a);
    let s = fourth(p, q, r);
    (!share & (!same_side(p, q) & !same_side(r, s))).then_some(ContactKind::Crossing)
}

// Whether they meet where neither end of the second is on the line of the first: then they share no end, and no part of the rule is a branch.
pub fn crosses(a: NearPoint, b: NearPoint, c: NearPoint, d: NearPoint, p: i64, q: i64) -> bool
    requires { (p ≡ turn (spot a.point) (spot b.point) (spot c.point)) × (q ≡ turn (spot a.point) (spot b.point) (spot d.point)) × (is_zero p ≡ false) × (is_zero q ≡ false) }
    ensures { result ≡ some_contact (kind (spot a.point) (spot b.point) (spot c.point) (spot d.point)) }
{
    // The same turn as that of c, d, a, from gaps that p and q took already.
    let r = turn_of(a, c, d);
    let s = fourth(p, q, r);
    !same_side(p, q) & !same_side(r, s)
}

// An end of the part that two segments have in common is open where it ends both.
fn overlap_mark(a: Point, b: Point, c: Point, d: Point, v: Point) -> EndPoint
    ensures { (end_of result ≡ spot v) × (mark_of result ≡ mark_at (spot a) (spot b) (spot c) (spot d) (spot v)) }
{
    if ((v == a) | (v == b)) & ((v == c) | (v == d)) {
        EndPoint::Exclusive(v)
    } else {
        EndPoint::Inclusive(v)
    }
}

// That part of two segments on one line.
fn overlap_of(a: Point, b: Point, c: Point, d: Point) -> ILineSegment
    ensures { kind_of (Some result) ≡ overlap_of (spot a) (spot b) (spot c) (spot d) }
{
    ILineSegment::Overlap(LineSegment {
        min: overlap_mark(a, b, c, d, overlap_start(a, b, c, d)),
        max: overlap_mark(a, b, c, d, overlap_end(a, b, c, d)),
    })
}

// How the segments a b and c d meet.
fn segments_contact(a: NearPoint, b: NearPoint, c: NearPoint, d: NearPoint) -> Option<ILineSegment>
    ensures { kind_of result ≡ kind (spot a.point) (spot b.point) (spot c.point) (spot d.point) }
{
    let p = turn_of(a, b, c);
    let q = turn_of(a, b, d);
    let share = share(a.point, b.point, c.point, d.point);
    match contact_by_turns(a, b, c, d, p, q, share)? {
        ContactKind::Crossing => Some(ILineSegment::Crossing),
        ContactKind::Overlap => Some(overlap_of(a.point, b.point, c.point, d.point)),
    }
}

impl LineSegment {
    // How two segments meet (`LineSegmentView::intersect`), where an end that they share is open in both, and no other. p and q are the turns of this one's ends
    // to the other's: one who goes from segment to segment along a ring has the first of them already. The limits are required, since an end may be any point.
    pub fn intersect(self, other: LineSegment, p: i64, q: i64) -> Option<ContactKind>
        requires { InRange (end_of self.min) × InRange (end_of self.max) × InRange (end_of other.min) × InRange (end_of other.max) × (p ≡ turn (end_of self.min) (end_of self.max) (end_of other.min)) × (q ≡ turn (end_of self.min) (end_of self.max) (end_of other.max)) × ((is_open (mark_of self.min) || is_open (mark_of self.max)) ≡ shared (end_of self.min) (end_of self.max) (end_of other.min) (end_of other.max)) }
        ensures { result ≡ without_ends (kind (end_of self.min) (end_of self.max) (end_of other.min) (end_of other.max)) }
    {
        let a = NearPoint {
            point: self.min.inner(),
        };
        let b = NearPoint {
            point: self.max.inner(),
        };
        let c = NearPoint {
            point: other.min.inner(),
        };
        let d = NearPoint {
            point: other.max.inner(),
        };
        let share = self.min.is_open() | self.max.is_open();
        contact_by_turns(a, b, c, d, p, q, share)
    }
}

// How two segments meet elsewhere than in an end of both (`intersects` of two_opt.rs, with shared ends exclusive).
pub fn contact(a1: Point, a2: Point, b1: Point, b2: Point) -> Result<Option<ILineSegment>, Refusal>
    ensures { contact_of result ≡ contact (spot a1) (spot a2) (spot b1) (spot b2) }
{
    let a1 = NearPoint::try_from(a1)?;
    let a2 = NearPoint::try_from(a2)?;
    let b1 = NearPoint::try_from(b1)?;
    let b2 = NearPoint::try_from(b2)?;
    if (a1 == a2) | (b1 == b2) {
        return Err(Refusal::OutOfRange);
    }
    Ok(segments_contact(a1, a2, b1, b2))
}

// Whether they do.
pub fn meets(a1: Point, a2: Point, b1: Point, b2: Point) -> Result<bool, Refusal>
    ensures { told result ≡ meeting (spot a1) (spot a2) (spot b1) (spot b2) }
{
    Ok(contact(a1, a2, b1, b2)?.is_some())
}
