// Places on a ring (polygon.rs, `PositionId` and `Position`).
ghost use Rattle.std.specs.Prelude.{◌≡◌, ◌<◌};
ghost use Rattle.polygon.specs.Ring.{next, prev};
ghost use Rattle.polygon.specs.Place.{position};

// A ring position. It is taken apart only where a slice is indexed.
#[derive(Clone, Copy, Debug, PartialEq, Eq, PartialOrd, Ord)]
pub struct PositionId(pub u16);

// A ring position with the size of its ring, so that it can move on and back. That it is below the size is no invariant: the definitions make positions of
// plain numbers (`position`), so that one equation says both fields.
#[derive(Clone, Copy, Debug, PartialEq, Eq)]
pub struct Position {
    pub id: PositionId,
    pub size: u16,
}

impl Position {
    // One place on, from the last to the first.
    pub fn next(self) -> Position
        requires { self.id.0 < self.size }
        ensures { result ≡ position self.size (next self.size self.id.0) }
    {
        let i = self.id.0;
        let id = if i == self.size - 1 { 0 } else { i + 1 };
        Position {
            id: PositionId(id),
            ..self
        }
    }

    // One place back, from the first to the last.
    pub fn prev(self) -> Position
        requires { self.id.0 < self.size }
        ensures { result ≡ position self.size (prev self.size self.id.0) }
    {
        let i = self.id.0;
        let id = if i == 0 { self.size - 1 } else { i - 1 };
        Position {
            id: PositionId(id),
            ..self
        }
    }

    // One place on, in place: the form for a position that is lent.
    pub fn move_next(&mut self)
        requires { self.old.id.0 < self.old.size }
        ensures { self.new ≡ position self.old.size (next self.old.size self.old.id.0) }
    {
        *self = self.next();
    }

    // One place back, likewise.
    pub fn move_prev(&mut self)
        requires { self.old.id.0 < self.old.size }
        ensures { self.new ≡ position self.old.size (prev self.old.size self.old.id.0) }
    {
        *self = self.prev();
    }
}

// The place after i, and before it, on a ring of n: for loops over places, which count from 0. By way of `Position` it would be two casts and a struct, and no
// ring of more than 65,535.
pub fn next_place(n: usize, i: usize) -> usize
    requires { i < n }
    ensures { (result ≡ next n i) × (result < n) }
{
    if i + 1 == n { 0 } else { i + 1 }
}

pub fn prev_place(n: usize, i: usize) -> usize
    requires { i < n }
    ensures { (result ≡ prev n i) × (result < n) }
{
    if i == 0 { n - 1 } else { i - 1 }
}
