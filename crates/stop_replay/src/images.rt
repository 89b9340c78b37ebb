// Images, good and damaged.
use super::buffers::{Machine, moves_and_left};
use super::case::State;
use super::hash::Hash;
use going_on::go_on;
use refusal::Refusal;
use save::{Records, save};
use std::alloc::Global;
use std::io::{self, Write};
use two_opt::entries::Delivered;

// The longest text of a run that goes on.
const TEXT: usize = 104 + 44 * 256;

// A byte's bits, from the lowest.
const BITS: [u8; 8] = [1, 2, 4, 8, 16, 32, 64, 128];

// A word at the start of a row of bytes; 0 if there are fewer.
fn first_word(bytes: &[u8]) -> u32 {
    match bytes.first_chunk::<4>() {
        Some(word) => u32::from_le_bytes(*word),
        None => 0,
    }
}

// A line: the length of the image that is saved where the run got to, and its hash; none where the image is refused.
fn write_reached<W: Write>(
    out: &mut W,
    alloc: Global,
    machine: &mut Machine,
    image: &[u8],
    picks: &[u32],
) -> io::Result<()> {
    let Some((_, left)) = moves_and_left(machine.take_up(image, picks)) else {
        return Ok(());
    };
    let reached = machine.saved_again(alloc, first_word(image) as usize, left)?;
    writeln!(
        out,
        "image {} {}",
        reached.len(),
        Hash::new().then(&reached)
    )
}

// What `takeup` prints of an input, and the line of the image where the run got to.
pub fn write_text<W: Write>(
    out: &mut W,
    alloc: Global,
    machine: &mut Machine,
    input: &[u8],
) -> io::Result<()> {
    let mut picks = vec![in alloc; 0; input.len() / 4]?;
    let mut text = vec![in alloc; 0; TEXT]?;
    let size = go_on(input, &mut picks, &mut text);
    out.write_all(text.get(..size).unwrap_or(&[]))?;
    let count = first_word(input) as usize;
    match (input.get(4 + 4 * count..), picks.get(..count)) {
        (Some(image), Some(picks)) => write_reached(out, alloc, machine, image, picks),
        _ => Ok(()),
    }
}

// The number of an answer: 0 for a loop.
fn number_of(done: Result<Delivered, Refusal>) -> u8 {
    match done {
        Ok(_) => 0,
        Err(refusal) => refusal.number(),
    }
}

// A line: the answers to the image with one bit after the other turned, from the lowest of each byte, and no picks. `K*N` stands for N times K.
pub fn write_flips<W: Write>(
    out: &mut W,
    alloc: Global,
    machine: &mut Machine,
    image: &[u8],
) -> io::Result<()> {
    let mut damaged = image.iter().copied().collect::<Vec<u8>>(alloc)?;
    let mut last = number_of(machine.take_up(image, &[]));
    let mut times = 1u32;
    for i in 0..damaged.len() {
        for bit in BITS {
            damaged[i] ^= bit;
            let number = number_of(machine.take_up(&damaged, &[]));
            damaged[i] ^= bit;
            if number == last {
                times = times.wrapping_add(1);
            } else {
                write!(out, "{last}*{times} ")?;
                last = number;
                times = 1;
            }
        }
    }
    writeln!(out, "{last}*{times}")
}

// A line: the number of a refusal, or the length of the image that was saved and its hash.
pub fn write_saved<W: Write>(out: &mut W, alloc: Global, state: State<'_>) -> io::Result<()> {
    let x = state
        .x
        .iter()
        .map(|w| i32::from_le_bytes(*w))
        .collect::<Vec<i32>>(alloc)?;
    let y = state
        .y
        .iter()
        .map(|w| i32::from_le_bytes(*w))
        .collect::<Vec<i32>>(alloc)?;
    let ring = state
        .ring
        .iter()
        .map(|h| u16::from_le_bytes(*h))
        .collect::<Vec<u16>>(alloc)?;
    let dense = state
        .dense
        .iter()
        .map(|h| u16::from_le_bytes(*h))
        .collect::<Vec<u16>>(alloc)?;
    let ends = state
        .ends
        .iter()
        .map(|w| u64::from_le_bytes(*w))
        .collect::<Vec<u64>>(alloc)?;
    let ages = state
        .ages
        .iter()
        .map(|w| u32::from_le_bytes(*w))
        .collect::<Vec<u32>>(alloc)?;
    let mut image = vec![in alloc; 0; state.room]?;
    let records = Records {
        live: state.live,
        dense: &dense,
        ends: &ends,
        ages: &ages,
    };
    match save(state.n, &x, &y, &ring, records, &mut image) {
        Ok(size) => writeln!(
            out,
            "{size} {}",
            Hash::new().then(image.get(..size).unwrap_or(&[]))
        ),
        Err(refusal) => writeln!(out, "{}", refusal.number()),
    }
}
