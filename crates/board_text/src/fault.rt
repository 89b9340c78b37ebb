// What is wrong with a text.
use std::error::Error;
use std::fmt;

// Why a line is not read: it has no form of a line, or a number that it needs is none; or a number is beyond 32 bits. It has no text: what stands in it
// depends on the forms that a program takes.
#[derive(Clone, Copy, Debug, PartialEq, Eq)]
pub enum LineError {
    Malformed,
    OutOfRange,
}

// What each program says of the second.
pub const OUT_OF_RANGE: &str = "a number does not fit 32 bits";

// The most bytes of a text.
pub const LONGEST: u64 = 262_144;

// Why a text is none of a program's: it is too long, or the first line that does not fit, from 1 on, with the program's reason.
#[derive(Clone, Copy, Debug, PartialEq, Eq)]
pub enum TextFault<F> {
    TooLong,
    Line { number: usize, fault: F },
}

impl<F: fmt::Display> fmt::Display for TextFault<F> {
    fn fmt<W: fmt::Write>(&self, f: &mut fmt::Formatter<W>) -> fmt::Result {
        match self {
            TextFault::TooLong => write!(f, "the text is longer than {LONGEST} bytes"),
            TextFault::Line { number, fault } => write!(f, "line {number}: {fault}"),
        }
    }
}

impl<F: Error> Error for TextFault<F> {}
