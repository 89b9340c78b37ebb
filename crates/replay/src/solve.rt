// One case, from its words to its answer.
use super::answer::write_answer;
use super::case::{Case, Kind};
use refusal::Refusal;
use std::alloc::{AllocError, Global};
use std::io::Write;
use two_opt::entries::{Delivered, resolve_self_intersections, two_opt_moves};
use two_opt::workspace::Workspace;

// What is enough for every call that is not refused: that many points, a record for each of their pairs in each order, and the numbers of the tree.
const POINTS: usize = 256;

const RECORDS: usize = POINTS * (POINTS - 1);

const TREE: usize = 4 * (2 * POINTS - 1);

// What a run is lent beside its points, picks and ring. A run starts with whatever the one before it left here.
#[derive(Drop)]
pub struct Buffers {
    index: Vec<u16>,
    heads: Vec<u16>,
    ends: Vec<u64>,
    links: Vec<u64>,
    ages: Vec<u32>,
    dense: Vec<u16>,
    reverse: Vec<u16>,
    free: Vec<u16>,
    tangles: Vec<u16>,
    tree: Vec<i32>,
}

// The picks of a case. The last one listed is made again until there are as many as it says.
fn picks_of(alloc: Global, case: Case<'_>) -> Result<Vec<u32>, AllocError> {
    let words = case.picks.iter().map(|w| u32::from_le_bytes(*w));
    let mut picks = words.collect::<Vec<u32>>(alloc)?;
    let last = picks.last().copied().unwrap_or(0);
    picks.resize(case.count, last)?;
    Ok(picks)
}

impl Buffers {
    pub fn new(alloc: Global) -> Result<Buffers, AllocError> {
        Ok(Buffers {
            index: vec![in alloc; 1; POINTS]?,
            heads: vec![in alloc; 2; RECORDS]?,
            ends: vec![in alloc; 3; RECORDS]?,
            links: vec![in alloc; 5; RECORDS]?,
            ages: vec![in alloc; 7; RECORDS]?,
            dense: vec![in alloc; 11; RECORDS]?,
            reverse: vec![in alloc; 12; RECORDS]?,
            free: vec![in alloc; 13; RECORDS]?,
            tangles: vec![in alloc; 17; RECORDS]?,
            tree: vec![in alloc; 19; TREE]?,
        })
    }

    // Runs the entry that the case names.
    fn run(
        &mut self,
        kind: Kind,
        n: usize,
        x: &[i32],
        y: &[i32],
        picks: &[u32],
        ring: &mut [u16],
    ) -> Result<Delivered, Refusal> {
        let mut work = Workspace {
            ring,
            index: &mut self.index,
            heads: &mut self.heads,
            ends: &mut self.ends,
            links: &mut self.links,
            ages: &mut self.ages,
            dense: &mut self.dense,
            reverse: &mut self.reverse,
            free: &mut self.free,
            tangles: &mut self.tangles,
            tree: &mut self.tree,
        };
        match kind {
            Kind::TwoOptMoves => two_opt_moves(n, x, y, picks, &mut work),
            Kind::ResolveSelfIntersections => resolve_self_intersections(n, x, y, picks, &mut work),
        }
    }

    // Runs a case and writes its answer; a write that fails is passed over. A case without a ring starts with any; an entry that 16 bits do not hold names no
    // point, as 65,535 does.
    pub fn solve<W: Write>(
        &mut self,
        alloc: Global,
        case: Case<'_>,
        out: &mut W,
    ) -> Result<(), AllocError> {
        let points = case.points.as_chunks::<2>().0;
        let x = points
            .iter()
            .map(|p| i32::from_le_bytes(p[0]))
            .collect::<Vec<i32>>(alloc)?;
        let y = points
            .iter()
            .map(|p| i32::from_le_bytes(p[1]))
            .collect::<Vec<i32>>(alloc)?;
        let picks = picks_of(alloc, case)?;
        let entries = case.ring.iter().map(|w| u16::try_from(u32::from_le_bytes(*w)).unwrap_or(
            u16::MAX,
        ));
        let mut ring = entries.collect::<Vec<u16>>(alloc)?;
        ring.resize(points.len(), 0)?;
        let done = self.run(case.kind, case.n, &x, &y, &picks, &mut ring);
        let _ = write_answer(
            out,
            done,
            &ring,
            &self.dense,
            &self.ends,
            &self.ages,
            &self.tangles,
            &self.tree,
        );
        Ok(())
    }
}
