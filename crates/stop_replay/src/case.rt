// A case of the input.

// A case that is cut off, or of another kind.
#[derive(Debug, Drop)]
pub struct BadCase;

// The words of a run that is stopped after each of its picks.
#[derive(Clone, Copy)]
pub struct Run<'a> {
    pub points: &'a [[u8; 4]],
    pub picks: &'a [[u8; 4]],
}

// What a call is lent that saves a state, and how many bytes the image may take.
#[derive(Clone, Copy)]
pub struct State<'a> {
    pub n: usize,
    pub live: usize,
    pub room: usize,
    pub x: &'a [[u8; 4]],
    pub y: &'a [[u8; 4]],
    pub ring: &'a [[u8; 2]],
    pub dense: &'a [[u8; 2]],
    pub ends: &'a [[u8; 8]],
    pub ages: &'a [[u8; 4]],
}

#[derive(Clone, Copy)]
pub enum Case<'a> {
    Run(Run<'a>),
    // What `takeup` reads: how many picks, the picks, an image.
    Input(&'a [u8]),
    // An image of which one bit after the other is turned.
    Image(&'a [u8]),
    State(State<'a>),
}

// Takes so many bytes off the input.
fn take<'a>(input: &mut &'a [u8], size: usize) -> Result<&'a [u8], BadCase> {
    let (bytes, rest) = input.split_at_checked(size).ok_or(BadCase)?;
    *input = rest;
    Ok(bytes)
}

// Takes so many numbers of 16 bits off the input.
fn take_halves<'a>(input: &mut &'a [u8], count: u16) -> Result<&'a [[u8; 2]], BadCase> {
    Ok(take(input, 2 * count as usize)?.as_chunks::<2>().0)
}

// Takes so many numbers of 32 bits off the input.
fn take_words<'a>(input: &mut &'a [u8], count: u16) -> Result<&'a [[u8; 4]], BadCase> {
    Ok(take(input, 4 * count as usize)?.as_chunks::<4>().0)
}

// Takes a number of 16 bits off the input.
fn take_number(input: &mut &[u8]) -> Result<u16, BadCase> {
    let [number] = take_halves(input, 1)? else {
        return Err(BadCase);
    };
    Ok(u16::from_le_bytes(*number))
}

// Takes a row of bytes off the input, which stands behind their number.
fn take_row<'a>(input: &mut &'a [u8]) -> Result<&'a [u8], BadCase> {
    let size = take_number(input)?;
    take(input, size as usize)
}

// Takes the words of a run off the input: how many points and picks, then these.
fn take_run<'a>(input: &mut &'a [u8]) -> Result<Run<'a>, BadCase> {
    let points = take_number(input)?;
    let picks = take_number(input)?;
    Ok(Run {
        points: take_words(input, points)?,
        picks: take_words(input, picks)?,
    })
}

// Takes what a call is lent that saves a state: three numbers, how many entries each list has, then the lists.
fn take_state<'a>(input: &mut &'a [u8]) -> Result<State<'a>, BadCase> {
    let [n, live, room, x, y, ring, dense, ends, ages] = take_halves(input, 9)? else {
        return Err(BadCase);
    };
    let x = take_words(input, u16::from_le_bytes(*x))?;
    let y = take_words(input, u16::from_le_bytes(*y))?;
    let ring = take_halves(input, u16::from_le_bytes(*ring))?;
    let dense = take_halves(input, u16::from_le_bytes(*dense))?;
    let ends = take(input, 8 * u16::from_le_bytes(*ends) as usize)?;
    let ages = take_words(input, u16::from_le_bytes(*ages))?;
    Ok(State {
        n: u16::from_le_bytes(*n) as usize,
        live: u16::from_le_bytes(*live) as usize,
        room: u16::from_le_bytes(*room) as usize,
        x,
        y,
        ring,
        dense,
        ends: ends.as_chunks::<8>().0,
        ages,
    })
}

// Takes the next case off the input; none is left at its end.
pub fn next_case<'a>(input: &mut &'a [u8]) -> Result<Option<Case<'a>>, BadCase> {
    if input.is_empty() {
        return Ok(None);
    }
    Ok(Some(match take(input, 1)? {
        [0] => Case::Run(take_run(input)?),
        [1] => Case::Input(take_row(input)?),
        [2] => Case::Image(take_row(input)?),
        [3] => Case::State(take_state(input)?),
        _ => return Err(BadCase),
    }))
}
