// How two segments meet, for hosts.
ghost use Rattle.std.specs.Prelude.{◌≡◌, ℤ};
ghost use Rattle.geometry.specs.Lent.{spot};
ghost use Rattle.geometry.specs.Answers.{end_of, mark_of, told, contact_of, meeting, contact};
ghost use Rattle.host.specs.Numbers.{no_end, end_in_numbers, kind_in_numbers, yes_or_no};

use geometry::line_segment::{EndPoint, ILineSegment, contact, meets};
use geometry::point::Point;
use refusal::Refusal;

// An end of an overlap: 1 where it is open.
#[repr(C)]
#[derive(Clone, Copy)]
pub struct TourEnd {
    pub x: i32,
    pub y: i32,
    pub is_open: u32,
}

// Code 0 with the kind: 0 for none, 1 for a crossing, 2 for an overlap with its two ends. Else the number of the refusal. What a code or a kind does
// not name is 0.
#[repr(C)]
#[derive(Clone, Copy)]
pub struct TourKind {
    pub code: u32,
    pub kind: u32,
    pub start: TourEnd,
    pub stop: TourEnd,
}

impl From<EndPoint> for TourEnd {
    ghost from_gives = { λ end given. given ≡ end_in_numbers (end_of end) (mark_of end) };

    fn from(end: EndPoint) -> TourEnd {
        let Point { x, y } = end.inner();
        TourEnd {
            x,
            y,
            is_open: u32::from(matches!(end, EndPoint::Exclusive(_))),
        }
    }
}

fn no_ends(code: u32, kind: u32) -> TourKind
    ensures { result ≡ record { code = code; kind = kind; start = no_end; stop = no_end } }
{
    let none = TourEnd {
        x: 0,
        y: 0,
        is_open: 0,
    };
    TourKind {
        code,
        kind,
        start: none,
        stop: none,
    }
}

impl From<Result<Option<ILineSegment>, Refusal>> for TourKind {
    ghost from_gives = { λ kind given. given ≡ kind_in_numbers (contact_of kind) };

    fn from(kind: Result<Option<ILineSegment>, Refusal>) -> TourKind {
        match kind {
            Ok(None) => no_ends(0, 0),
            Ok(Some(ILineSegment::Crossing)) => no_ends(0, 1),
            Ok(Some(ILineSegment::Overlap(part))) => TourKind {
                code: 0,
                kind: 2,
                start: part.min.into(),
                stop: part.max.into(),
            },
            Err(refusal) => no_ends(refusal.number() as u32, 0),
        }
    }
}

fn point(x: i32, y: i32) -> Point
    ensures { spot result ≡ record { x = x; y = y } }
{
    Point { x, y }
}

// How the segments a1 a2 and b1 b2 meet elsewhere than in an end of both.
#[unsafe(no_mangle)]
pub extern "C" fn tour_contact(
    a1x: i32,
    a1y: i32,
    a2x: i32,
    a2y: i32,
    b1x: i32,
    b1y: i32,
    b2x: i32,
    b2y: i32,
) -> TourKind
    ensures { result ≡ kind_in_numbers (contact (record { x = a1x; y = a1y }) (record { x = a2x; y = a2y }) (record { x = b1x; y = b1y }) (record { x = b2x; y = b2y })) }
{
    contact(
        point(a1x, a1y),
        point(a2x, a2y),
        point(b1x, b1y),
        point(b2x, b2y),
    )
    .into()
}

fn in_number(met: Result<bool, Refusal>) -> u32
    ensures { result ≡ yes_or_no (told met) }
{
    match met {
        Ok(true) => 1,
        Ok(false) => 0,
        Err(refusal) => refusal.number() as u32,
    }
}

// 1 where they do, 0 where they do not, 3 where the call is refused.
#[unsafe(no_mangle)]
pub extern "C" fn tour_meets(
    a1x: i32,
    a1y: i32,
    a2x: i32,
    a2y: i32,
    b1x: i32,
    b1y: i32,
    b2x: i32,
    b2y: i32,
) -> u32
    ensures { result ≡ yes_or_no (meeting (record { x = a1x; y = a1y }) (record { x = a2x; y = a2y }) (record { x = b1x; y = b1y }) (record { x = b2x; y = b2y })) }
{
    in_number(meets(
        point(a1x, a1y),
        point(a2x, a2y),
        point(b1x, b1y),
        point(b2x, b2y),
    ))
}
