// The check of a drawn loop, for hosts.
ghost use Rattle.std.specs.Prelude.{◌≡◌, Result};
ghost use Rattle.refusal.specs.declared.Refusal.{Refusal};
ghost use Rattle.validate.specs.Drawn.{validated, check_of};
ghost use Rattle.host.specs.Numbers.{check_in_numbers};

use refusal::Refusal;
use validate::drawn::validate;

// Code 0 where the ring passes, code 15 with the positions of the first two edges that meet, else the number of the refusal and no positions.
#[repr(C)]
#[derive(Clone, Copy)]
pub struct TourChecked {
    pub code: u32,
    pub first: usize,
    pub second: usize,
}

impl From<Result<(), Refusal>> for TourChecked {
    ghost from_gives = { λ done given. given ≡ check_in_numbers (check_of done) };

    fn from(done: Result<(), Refusal>) -> TourChecked {
        match done {
            Ok(()) => TourChecked {
                code: 0,
                first: 0,
                second: 0,
            },
            Err(refusal @ Refusal::EdgesMeet { first, second }) => TourChecked {
                code: refusal.number() as u32,
                first,
                second,
            },
            Err(refusal) => TourChecked {
                code: refusal.number() as u32,
                first: 0,
                second: 0,
            },
        }
    }
}

// Whether the loop that the ring's first n entries name may go to ink.
#[unsafe(no_mangle)]
pub extern "C" fn tour_validate(n: usize, x: &[i32], y: &[i32], ring: &[u16]) -> TourChecked
    ensures { result ≡ check_in_numbers (validated n x.now y.now ring.now) }
{
    validate(n, x, y, ring).into()
}
