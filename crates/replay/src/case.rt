// A case of the input: its header, then its body.
use std::io::{BufRead, Read};

// The entry that a case is put to.
#[derive(Clone, Copy)]
pub enum Kind {
    TwoOptMoves,
    ResolveSelfIntersections,
}

// A case that is cut off, of another kind, or of too many picks.
#[derive(Debug, Drop)]
pub struct BadCase;

impl TryFrom<u32> for Kind {
    type Error = BadCase;

    fn try_from(word: u32) -> Result<Kind, BadCase> {
        match word {
            0 => Ok(Kind::TwoOptMoves),
            1 => Ok(Kind::ResolveSelfIntersections),
            _ => Err(BadCase),
        }
    }
}

// The words of a case. Only a case for `resolve_self_intersections` has a ring. The last of its picks is made again until there are `count`.
#[derive(Clone, Copy)]
pub struct Case<'a> {
    pub kind: Kind,
    pub n: usize,
    pub points: &'a [[u8; 4]],
    pub ring: &'a [[u8; 4]],
    pub picks: &'a [[u8; 4]],
    pub count: usize,
}

// The bytes of the longest body that is kept: 256 points with a ring, and 4,096 picks.
pub const BODY: usize = 19_456;

// What the first three words of a case say.
#[derive(Clone, Copy)]
struct Header {
    kind: Kind,
    n: u32,
    listed: u32,
    count: u32,
}

impl Header {
    // The ring's entries.
    fn entries(self) -> u32 {
        match self.kind {
            Kind::TwoOptMoves => 0,
            Kind::ResolveSelfIntersections => self.n,
        }
    }

    // The bytes of the body.
    fn size(self) -> u64 {
        8 * self.n as u64 + 4 * self.entries() as u64 + 4 * self.listed as u64
    }

    // The case with this body. Of more than 256 points, which are refused for that, no words are kept.
    fn case(self, body: &[u8]) -> Result<Case<'_>, BadCase> {
        let mut rest = body;
        let is_kept = self.n <= 256;
        let kept = |count: u32| if is_kept { count as usize } else { 0 };
        Ok(Case {
            kind: self.kind,
            n: self.n as usize,
            points: take_words(&mut rest, 2 * kept(self.n))?,
            ring: take_words(&mut rest, kept(self.entries()))?,
            picks: take_words(&mut rest, kept(self.listed))?,
            count: self.count as usize,
        })
    }
}

impl TryFrom<[u8; 12]> for Header {
    type Error = BadCase;

    fn try_from(head: [u8; 12]) -> Result<Header, BadCase> {
        let [k0, k1, k2, k3, n0, n1, n2, n3, c0, c1, c2, c3] = head;
        let word = u32::from_le_bytes([k0, k1, k2, k3]);
        let n = u32::from_le_bytes([n0, n1, n2, n3]);
        let count = u32::from_le_bytes([c0, c1, c2, c3]);
        let (kind, listed) = match word {
            2 | 3 => (word - 2, 1),
            _ => (word, count),
        };
        let kind = Kind::try_from(kind)?;
        if 4096 < listed || 1_000_001 < count {
            return Err(BadCase);
        }
        Ok(Header {
            kind,
            n,
            listed,
            count,
        })
    }
}

// Whether the next case stands whole in what was read ahead, so that it is answered without waiting.
pub fn is_ahead(bytes: &[u8]) -> bool {
    match bytes.split_first_chunk::<12>() {
        Some((head, rest)) => match Header::try_from(*head) {
            Ok(header) => header.size() <= rest.len() as u64,
            Err(_) => true,
        },
        None => false,
    }
}

fn read<R: Read>(input: &mut R, bytes: &mut [u8]) -> Result<(), BadCase> {
    input.read_exact(bytes).map_err(|_| BadCase)
}

// Reads so many bytes, piece by piece. Where they are no more than a piece they stand at its start.
fn read_pieces<R: Read>(input: &mut R, size: u64, piece: &mut [u8; BODY]) -> Result<(), BadCase> {
    for _ in 0..size / BODY as u64 {
        read(input, piece)?;
    }
    let rest = (size % BODY as u64) as usize;
    read(input, &mut piece[..rest])
}

// Takes so many words off the bytes.
fn take_words<'a>(bytes: &mut &'a [u8], count: usize) -> Result<&'a [[u8; 4]], BadCase> {
    let size = count.checked_mul(4).ok_or(BadCase)?;
    let (words, rest) = bytes.split_at_checked(size).ok_or(BadCase)?;
    *bytes = rest;
    Ok(words.as_chunks::<4>().0)
}

// Reads the next case into `body`; none is left at the input's end.
pub fn next_case<'a, R: BufRead>(
    input: &mut R,
    body: &'a mut [u8; BODY],
) -> Result<Option<Case<'a>>, BadCase> {
    if !input.fill_buf().is_ok_and(|ahead| !ahead.is_empty()) {
        return Ok(None);
    }
    let mut head = [0; 12];
    read(input, &mut head)?;
    let header = Header::try_from(head)?;
    read_pieces(input, header.size(), body)?;
    Ok(Some(header.case(body)?))
}
