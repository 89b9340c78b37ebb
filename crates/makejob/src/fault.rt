// Why a text makes no job. The first two are a line's, `LineError`, whose reader knows of no others.
ghost use Rattle.std.specs.Prelude.{◌≡◌};
ghost use Rattle.makejob.specs.Faults.{fault_of};

use board_text::fault::{LineError, OUT_OF_RANGE};
use std::error::Error;
use std::fmt;

#[derive(Clone, Copy, Debug, PartialEq, Eq)]
pub enum Fault {
    Malformed,
    OutOfRange,
    ManyPoints,
    LongJob,
    PicksTwice,
}

impl fmt::Display for Fault {
    fn fmt<W: fmt::Write>(&self, f: &mut fmt::Formatter<W>) -> fmt::Result {
        f.write_str(match self {
            Fault::Malformed => "expected X Y, pick N, picks SEED COUNT, a # comment or nothing",
            Fault::OutOfRange => OUT_OF_RANGE,
            Fault::ManyPoints => "more than 48 points",
            Fault::LongJob => "the job is longer than 16384 bytes",
            Fault::PicksTwice => "one line picks gives all picks: there are picks already",
        })
    }
}

impl Error for Fault {}

impl From<LineError> for Fault {
    ghost from_gives = { λ e fault. fault ≡ fault_of e };

    fn from(e: LineError) -> Fault {
        match e {
            LineError::Malformed => Fault::Malformed,
            LineError::OutOfRange => Fault::OutOfRange,
        }
    }
}
