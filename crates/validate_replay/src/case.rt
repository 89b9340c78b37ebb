// A case of the input, as bytes, and the numbers that a call is lent.
use std::alloc::{AllocError, Global};

// A case that is cut off, or whose coordinates are of another width.
#[derive(Debug, Drop)]
pub struct BadCase;

// How many bytes a coordinate has.
#[derive(Clone, Copy)]
enum Width {
    One,
    Four,
}

impl TryFrom<u8> for Width {
    type Error = BadCase;

    fn try_from(byte: u8) -> Result<Width, BadCase> {
        match byte {
            1 => Ok(Width::One),
            4 => Ok(Width::Four),
            _ => Err(BadCase),
        }
    }
}

// The bytes of a case.
#[derive(Clone, Copy)]
pub struct Case<'a> {
    pub n: usize,
    width: Width,
    x: &'a [u8],
    y: &'a [u8],
    ring: &'a [[u8; 2]],
}

// Takes so many bytes off the input.
fn take<'a>(input: &mut &'a [u8], size: usize) -> Result<&'a [u8], BadCase> {
    let (bytes, rest) = input.split_at_checked(size).ok_or(BadCase)?;
    *input = rest;
    Ok(bytes)
}

// Takes so many numbers of 16 bits off the input.
fn take_numbers<'a>(input: &mut &'a [u8], count: u16) -> Result<&'a [[u8; 2]], BadCase> {
    Ok(take(input, 2 * count as usize)?.as_chunks::<2>().0)
}

// Takes so many coordinates off the input.
fn take_coordinates<'a>(
    input: &mut &'a [u8],
    width: Width,
    count: u16,
) -> Result<&'a [u8], BadCase> {
    let each = match width {
        Width::One => 1,
        Width::Four => 4,
    };
    take(input, each * count as usize)
}

// Takes the next case off the input; none is left at its end.
pub fn next_case<'a>(input: &mut &'a [u8]) -> Result<Option<Case<'a>>, BadCase> {
    if input.is_empty() {
        return Ok(None);
    }
    let [width] = take(input, 1)? else {
        return Err(BadCase);
    };
    let width = Width::try_from(*width)?;
    let [n, x, y, ring] = take_numbers(input, 4)? else {
        return Err(BadCase);
    };
    Ok(Some(Case {
        n: u16::from_le_bytes(*n) as usize,
        width,
        x: take_coordinates(input, width, u16::from_le_bytes(*x))?,
        y: take_coordinates(input, width, u16::from_le_bytes(*y))?,
        ring: take_numbers(input, u16::from_le_bytes(*ring))?,
    }))
}

// The coordinates that stand in a row of bytes.
fn coordinates(alloc: Global, width: Width, bytes: &[u8]) -> Result<Vec<i32>, AllocError> {
    match width {
        Width::One => bytes
            .iter()
            .map(|b| i8::from_le_bytes([*b]) as i32)
            .collect::<Vec<i32>>(alloc),
        Width::Four => bytes
            .as_chunks::<4>()
            .0
            .iter()
            .map(|w| i32::from_le_bytes(*w))
            .collect::<Vec<i32>>(alloc),
    }
}

impl Case<'_> {
    // The x that the call is lent.
    pub fn x(self, alloc: Global) -> Result<Vec<i32>, AllocError> {
        coordinates(alloc, self.width, self.x)
    }

    // The y.
    pub fn y(self, alloc: Global) -> Result<Vec<i32>, AllocError> {
        coordinates(alloc, self.width, self.y)
    }

    // The ring's entries.
    pub fn ring(self, alloc: Global) -> Result<Vec<u16>, AllocError> {
        let entries = self.ring.iter().map(|e| u16::from_le_bytes(*e));
        entries.collect::<Vec<u16>>(alloc)
    }
}
