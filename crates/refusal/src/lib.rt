// Why a call is refused: one enum for all crates, with the refusal numbers.
#![tactic(auto)]

ghost use Rattle.std.specs.Prelude.{◌≡◌};
ghost use Rattle.refusal.specs.Number.{number_of};

use std::error::Error;
use std::fmt;

#[derive(Clone, Copy, Debug, PartialEq, Eq)]
pub enum Refusal {
    // More than 256 points.
    ManyPoints,
    // A lent buffer has too few entries.
    ShortBuffer,
    // A coordinate is beyond the limits, or a segment has no length.
    OutOfRange,
    // The ring does not name each point once.
    NoRing,
    // Two points are equal.
    EqualPoints,
    // Fewer than three points.
    FewPoints,
    // All points lie on one line.
    OneLine,
    // The picks are used up, and records are left.
    PicksUsedUp { moves: usize, left: usize },
    // The job is shorter than its header, or longer than any job.
    JobLength,
    // The total that the job names is not its length.
    TotalLength,
    // The job names more points than the machine takes.
    ManyJobPoints,
    // An area of the job is not within it.
    AreaOutside,
    // The areas of the job share bytes.
    SharedBytes,
    // The least point of a drawn loop does not turn counter-clockwise.
    NotCounterClockwise,
    // Edges of a drawn loop meet; the first two start at these positions.
    EdgesMeet { first: usize, second: usize },
    // More than 1,000,000 picks.
    ManyPicks,
    // The image of a stopped run is not as its header says.
    ImageFile,
    // The records of a stopped run are not those of its ring.
    WrongRecords,
}

impl Refusal {
    // The number by which hosts and printed lines name it.
    pub fn number(self) -> u8
        ensures { result ≡ number_of self }
    {
        match self {
            Refusal::ManyPoints => 1,
            Refusal::ShortBuffer => 2,
            Refusal::OutOfRange => 3,
            Refusal::NoRing => 4,
            Refusal::EqualPoints => 5,
            Refusal::FewPoints => 6,
            Refusal::OneLine => 7,
            Refusal::PicksUsedUp { .. } => 8,
            Refusal::JobLength => 9,
            Refusal::TotalLength => 10,
            Refusal::ManyJobPoints => 11,
            Refusal::AreaOutside => 12,
            Refusal::SharedBytes => 13,
            Refusal::NotCounterClockwise => 14,
            Refusal::EdgesMeet { .. } => 15,
            Refusal::ManyPicks => 19,
            Refusal::ImageFile => 20,
            Refusal::WrongRecords => 21,
        }
    }
}

impl fmt::Display for Refusal {
    fn fmt<W: fmt::Write>(&self, f: &mut fmt::Formatter<W>) -> fmt::Result {
        f.write_str(match self {
            Refusal::ManyPoints => "more than 256 points",
            Refusal::ShortBuffer => "a lent buffer has too few entries",
            Refusal::OutOfRange => "a coordinate is beyond the limits, or a segment has no length",
            Refusal::NoRing => "the ring does not name each point once",
            Refusal::EqualPoints => "two points are equal",
            Refusal::FewPoints => "fewer than three points",
            Refusal::OneLine => "all points lie on one line",
            Refusal::PicksUsedUp { .. } => "the picks are used up, and edges still meet",
            Refusal::JobLength => "the job has fewer than 20 bytes or more than 16384",
            Refusal::TotalLength => "the total in the job's header is not its length",
            Refusal::ManyJobPoints => "the job has more than 48 points",
            Refusal::AreaOutside => "an area of the job is not within it",
            Refusal::SharedBytes => "the areas of the job share bytes",
            Refusal::NotCounterClockwise => "the least point does not turn counter-clockwise",
            Refusal::EdgesMeet { .. } => "two edges meet",
            Refusal::ManyPicks => "more than 1000000 picks",
            Refusal::ImageFile => "the image has a wrong length, record width or area",
            Refusal::WrongRecords => "the records or their ages are not those of the ring",
        })
    }
}

impl Error for Refusal {}
