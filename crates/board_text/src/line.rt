// The lines of a board: `x y`, `pick N`, `picks SEED COUNT`, a comment or nothing.
ghost use Rattle.std.specs.Prelude.{◌≡◌};
ghost use Rattle.board_text.specs.Numbers.{parsed_of};
ghost use Rattle.board_text.specs.Lines.{before_comment as before_comment_of, fields_of, shown, pad_of as pad_from, pad_line, pick_of as pick_from, line_of};

use super::fault::LineError;
use super::number::{read_coordinate, read_word};

// A pad, in micrometres.
#[derive(Clone, Copy, Debug, PartialEq, Eq)]
pub struct Pad {
    pub x: i32,
    pub y: i32,
}

#[derive(Clone, Copy, Debug, PartialEq, Eq)]
pub enum Line {
    Blank,
    Pad(Pad),
    Pick(u32),
    Picks { seed: u32, count: u32 },
}

// The fields of a line. A missing one is as an empty one, which is no number.
#[derive(Clone, Copy)]
struct Fields<'a> {
    first: &'a [u8],
    second: &'a [u8],
    third: &'a [u8],
}

fn before_comment(line: &[u8]) -> &[u8]
    ensures { result.now ≡ before_comment_of line.now }
{
    line.split(|b| *b == b'#').next().unwrap_or(line)
}

// Up to three fields, or none, of what stands before a comment. They stand between spaces, tabs and carriage returns.
fn read_fields(line: &[u8]) -> Result<Option<Fields<'_>>, LineError>
    ensures { shown result ≡ fields_of line.now }
{
    let mut fields = before_comment(line)
        .split(|b| matches!(b, b' ' | b'\t' | b'\r'))
        .filter(|field| !field.is_empty());
    let none: &[u8] = &[];
    let Some(first) = fields.next() else {
        return Ok(None);
    };
    let Some(second) = fields.next() else {
        return Ok(Some(Fields {
            first,
            second: none,
            third: none,
        }));
    };
    let Some(third) = fields.next() else {
        return Ok(Some(Fields {
            first,
            second,
            third: none,
        }));
    };
    if fields.next().is_some() {
        return Err(LineError::Malformed);
    }
    Ok(Some(Fields {
        first,
        second,
        third,
    }))
}

#[tactic(auto, unfolding(crate::specs::Lines::pad_of))]
fn pad_of(fields: Fields<'_>) -> Result<Pad, LineError>
    ensures { parsed_of result ≡ pad_from fields.entry.first.now fields.entry.second.now fields.entry.third.now }
{
    if !fields.third.is_empty() {
        return Err(LineError::Malformed);
    }
    Ok(Pad {
        x: read_coordinate(fields.first)?,
        y: read_coordinate(fields.second)?,
    })
}

#[tactic(auto, unfolding(crate::specs::Lines::pick_of))]
fn pick_of(fields: Fields<'_>) -> Result<u32, LineError>
    ensures { parsed_of result ≡ pick_from fields.entry.second.now fields.entry.third.now }
{
    if !fields.third.is_empty() {
        return Err(LineError::Malformed);
    }
    read_word(fields.second)
}

// A line of a text with pads alone, in which a pick is as any other word.
#[tactic(auto, unfolding(crate::specs::Lines::pad_line))]
pub fn read_pad(line: &[u8]) -> Result<Option<Pad>, LineError>
    ensures { parsed_of result ≡ pad_line line.now }
{
    match read_fields(line)? {
        Some(fields) => Ok(Some(pad_of(fields)?)),
        None => Ok(None),
    }
}

// A line of a text with picks.
#[tactic(auto, unfolding(crate::specs::Lines::line_of))]
pub fn read_line(line: &[u8]) -> Result<Line, LineError>
    ensures { parsed_of result ≡ line_of line.now }
{
    let Some(fields) = read_fields(line)? else {
        return Ok(Line::Blank);
    };
    match fields.first {
        b"picks" => Ok(Line::Picks {
            seed: read_word(fields.second)?,
            count: read_word(fields.third)?,
        }),
        b"pick" => Ok(Line::Pick(pick_of(fields)?)),
        _ => Ok(Line::Pad(pad_of(fields)?)),
    }
}
