// A machine in lent buffers: it runs, it is saved, it goes on.
use refusal::Refusal;
use save::{Records, save};
use std::alloc::{AllocError, Global};
use take_up::take_up;
use two_opt::entries::{Delivered, two_opt_moves};
use two_opt::workspace::Workspace;

// What is enough for every call that is not refused: that many points, a record for each of their pairs in each order, the numbers of the tree, and the bytes of
// the longest image.
const POINTS: usize = 256;

const RECORDS: usize = POINTS * (POINTS - 1);

const TREE: usize = 4 * (2 * POINTS - 1);

const IMAGE: usize = 28 + 10 * POINTS + 12 * RECORDS;

// A call starts with whatever the one before it left here.
#[derive(Drop)]
pub struct Machine {
    x: Vec<i32>,
    y: Vec<i32>,
    ring: Vec<u16>,
    index: Vec<u16>,
    heads: Vec<u16>,
    ends: Vec<u64>,
    links: Vec<u64>,
    ages: Vec<u32>,
    dense: Vec<u16>,
    reverse: Vec<u16>,
    free: Vec<u16>,
    tangles: Vec<u16>,
    tree: Vec<i32>,
    image: Vec<u8>,
}

impl Machine {
    pub fn new(alloc: Global) -> Result<Machine, AllocError> {
        Ok(Machine {
            x: vec![in alloc; 23; POINTS]?,
            y: vec![in alloc; 29; POINTS]?,
            ring: vec![in alloc; 31; POINTS]?,
            index: vec![in alloc; 1; POINTS]?,
            heads: vec![in alloc; 2; RECORDS]?,
            ends: vec![in alloc; 3; RECORDS]?,
            links: vec![in alloc; 5; RECORDS]?,
            ages: vec![in alloc; 7; RECORDS]?,
            dense: vec![in alloc; 11; RECORDS]?,
            reverse: vec![in alloc; 12; RECORDS]?,
            free: vec![in alloc; 13; RECORDS]?,
            tangles: vec![in alloc; 17; RECORDS]?,
            tree: vec![in alloc; 19; TREE]?,
            image: vec![in alloc; 37; IMAGE]?,
        })
    }

    // A run from the points in their own order.
    pub fn run(&mut self, x: &[i32], y: &[i32], picks: &[u32]) -> Result<Delivered, Refusal> {
        let mut work = Workspace {
            ring: &mut self.ring,
            index: &mut self.index,
            heads: &mut self.heads,
            ends: &mut self.ends,
            links: &mut self.links,
            ages: &mut self.ages,
            dense: &mut self.dense,
            reverse: &mut self.reverse,
            free: &mut self.free,
            tangles: &mut self.tangles,
            tree: &mut self.tree,
        };
        two_opt_moves(x.len(), x, y, picks, &mut work)
    }

    // A run that goes on from an image.
    pub fn take_up(&mut self, image: &[u8], picks: &[u32]) -> Result<Delivered, Refusal> {
        let mut work = Workspace {
            ring: &mut self.ring,
            index: &mut self.index,
            heads: &mut self.heads,
            ends: &mut self.ends,
            links: &mut self.links,
            ages: &mut self.ages,
            dense: &mut self.dense,
            reverse: &mut self.reverse,
            free: &mut self.free,
            tangles: &mut self.tangles,
            tree: &mut self.tree,
        };
        take_up(image, picks, &mut self.x, &mut self.y, &mut work)
    }

    // The image of what a run over these points left.
    pub fn saved(
        &mut self,
        alloc: Global,
        x: &[i32],
        y: &[i32],
        left: usize,
    ) -> Result<Vec<u8>, AllocError> {
        let records = Records {
            live: left,
            dense: &self.dense,
            ends: &self.ends,
            ages: &self.ages,
        };
        let size = save(x.len(), x, y, &self.ring, records, &mut self.image).unwrap_or(0);
        self.image
            .iter()
            .take(size)
            .copied()
            .collect::<Vec<u8>>(alloc)
    }

    // The same over the points that were taken up.
    pub fn saved_again(
        &mut self,
        alloc: Global,
        n: usize,
        left: usize,
    ) -> Result<Vec<u8>, AllocError> {
        let records = Records {
            live: left,
            dense: &self.dense,
            ends: &self.ends,
            ages: &self.ages,
        };
        let size = save(n, &self.x, &self.y, &self.ring, records, &mut self.image).unwrap_or(0);
        self.image
            .iter()
            .take(size)
            .copied()
            .collect::<Vec<u8>>(alloc)
    }
}

// The moves that a call made, and the records that it left; none where it was refused.
pub fn moves_and_left(done: Result<Delivered, Refusal>) -> Option<(usize, usize)> {
    match done {
        Ok(Delivered { moves, .. }) => Some((moves, 0)),
        Err(Refusal::PicksUsedUp { moves, left }) => Some((moves, left)),
        Err(_) => None,
    }
}
