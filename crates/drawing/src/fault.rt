// Why a line is none of a drawn loop's: what a board's line may not be, in words that know of no picks.
ghost use Rattle.std.specs.Prelude.{◌≡◌};

use board_text::fault::{LineError, OUT_OF_RANGE};
use std::error::Error;
use std::fmt;

#[derive(Clone, Copy, Debug, PartialEq, Eq)]
pub struct Fault(pub LineError);

impl fmt::Display for Fault {
    fn fmt<W: fmt::Write>(&self, f: &mut fmt::Formatter<W>) -> fmt::Result {
        f.write_str(match self.0 {
            LineError::Malformed => "expected X Y, a # comment or nothing",
            LineError::OutOfRange => OUT_OF_RANGE,
        })
    }
}

impl Error for Fault {}

impl From<LineError> for Fault {
    ghost from_gives = { λ e fault. fault ≡ record { 0 = e } };

    fn from(e: LineError) -> Fault {
        Fault(e)
    }
}
