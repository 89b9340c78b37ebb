// A run that is stopped after each of its picks.
use super::buffers::{Machine, moves_and_left};
use super::case::Run;
use super::hash::Hash;
use refusal::Refusal;
use std::alloc::{AllocError, Global};
use std::fmt;
use std::io::{self, Write};
use two_opt::entries::Delivered;

// Of an answer what a line tells.
#[derive(Drop)]
pub struct Answer(pub Result<Delivered, Refusal>);

impl fmt::Display for Answer {
    fn fmt<W: fmt::Write>(&self, f: &mut fmt::Formatter<W>) -> fmt::Result {
        match self.0 {
            Ok(Delivered { moves, cross }) => write!(f, "ok moves {moves} cross {cross}"),
            Err(refusal @ Refusal::PicksUsedUp { moves, left }) => {
                write!(f, "refused {} moves {moves} left {left}", refusal.number())
            }
            Err(refusal) => write!(f, "refused {}", refusal.number()),
        }
    }
}

// The words of a run, as numbers.
#[derive(Drop)]
struct Board {
    x: Vec<i32>,
    y: Vec<i32>,
    picks: Vec<u32>,
}

impl Board {
    fn new(alloc: Global, run: Run<'_>) -> Result<Board, AllocError> {
        let xs = run
            .points
            .iter()
            .map(|p| i16::from_le_bytes([p[0], p[1]]) as i32);
        let ys = run
            .points
            .iter()
            .map(|p| i16::from_le_bytes([p[2], p[3]]) as i32);
        let picks = run.picks.iter().map(|w| u32::from_le_bytes(*w));
        Ok(Board {
            x: xs.collect::<Vec<i32>>(alloc)?,
            y: ys.collect::<Vec<i32>>(alloc)?,
            picks: picks.collect::<Vec<u32>>(alloc)?,
        })
    }
}

// Where a run with some picks got to: its answer, and its image, which has ring and records in dense order.
#[derive(Drop)]
struct Reached {
    done: Result<Delivered, Refusal>,
    image: Vec<u8>,
}

impl Reached {
    // By a run from the points in their own order.
    fn from_start(
        alloc: Global,
        machine: &mut Machine,
        board: &Board,
        picks: &[u32],
    ) -> Result<Reached, AllocError> {
        let done = machine.run(&board.x, &board.y, picks);
        let image = match moves_and_left(done) {
            Some((_, left)) => machine.saved(alloc, &board.x, &board.y, left)?,
            None => Vec::new(alloc),
        };
        Ok(Reached { done, image })
    }

    // By a run that goes on from here.
    fn go_on(
        &self,
        alloc: Global,
        machine: &mut Machine,
        n: usize,
        picks: &[u32],
    ) -> Result<Reached, AllocError> {
        let done = machine.take_up(&self.image, picks);
        let image = match moves_and_left(done) {
            Some((_, left)) => machine.saved_again(alloc, n, left)?,
            None => Vec::new(alloc),
        };
        Ok(Reached { done, image })
    }

    // The run that went on from here got where the unstopped one did: to the same image, and so to the same ring and records; both delivered a loop, or neither;
    // the moves add up; and its starting count is that of the records left here.
    fn leads(&self, there: &Reached, all: &Reached) -> bool {
        let (Some((before, count)), Some((behind, _)), Some((moves, _))) = (
            moves_and_left(self.done),
            moves_and_left(there.done),
            moves_and_left(all.done),
        ) else {
            return false;
        };
        let counted = match there.done {
            Ok(Delivered { cross, .. }) => cross == count,
            Err(_) => true,
        };
        counted
            && there.image == all.image
            && there.done.is_ok() == all.done.is_ok()
            && before.wrapping_add(behind) == moves
    }
}

// A line: what the run with all picks answered, at how many places it was stopped, and the hash of the images saved there. From each of them the run went on with
// all remaining picks, and with one, and got where the other did; else the first place where it did not is told.
pub fn write_stops<W: Write>(
    out: &mut W,
    alloc: Global,
    machine: &mut Machine,
    run: Run<'_>,
) -> io::Result<()> {
    let board = Board::new(alloc, run)?;
    let n = board.x.len();
    let all = Reached::from_start(alloc, machine, &board, &board.picks)?;
    let mut came = Reached::from_start(alloc, machine, &board, &[])?;
    let mut hash = Hash::new();
    let mut stops = 0u32;
    for k in 0..=board.picks.len() {
        let (before, behind) = board.picks.split_at(k);
        let here = Reached::from_start(alloc, machine, &board, before)?;
        let there = here.go_on(alloc, machine, n, behind)?;
        if here.image != came.image || !here.leads(&there, &all) {
            return writeln!(out, "{} differs at {k}", Answer(all.done));
        }
        came = here.go_on(alloc, machine, n, behind.get(..1).unwrap_or(&[]))?;
        hash = hash.then(&here.image);
        stops = stops.wrapping_add(1);
    }
    writeln!(out, "{} stops {stops} images {hash}", Answer(all.done))
}
