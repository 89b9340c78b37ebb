// The board that the lines tell: points in micrometres, and picks.
ghost use Rattle.arrayvec.specs.ArrayVec.{array_vec_len};
ghost use Rattle.makejob.specs.Kept.{Fits};

use super::fault::Fault;
use super::generator::draw;
use arrayvec::ArrayVec;
use board_text::fault::TextFault;
use board_text::line::{Line, Pad, read_line};
use board_text::lines::add_lines;

// The points and the picks so far: they make a job. The coordinates are apart: the encoder's public promise is over two lists, of any
// lengths.
#[derive(Drop)]
pub struct Board {
    pub x: ArrayVec<i32, 48>,
    pub y: ArrayVec<i32, 48>,
    pub picks: ArrayVec<u32, 4096>,
    // Whether a line `picks` gave the picks: one that gives none bars others too.
    drawn: bool,
    pub ghost fits: { Fits (array_vec_len x) (array_vec_len y) (array_vec_len picks) },
}

impl Board {
    ghost use Rattle.std.specs.Prelude.{◌≡◌, ◌+◌, ◌*◌, [], ◌∷◌, ◌++◌, map, OnOk};
    ghost use Rattle.algebra.specs.Ranges.{up_from};
    ghost use Rattle.makejob.specs.Drawn.{drawn};

    fn new() -> Board
        ensures { (result.x.items ≡ []) × (result.y.items ≡ []) × (result.picks.items ≡ []) }
    {
        Board {
            x: ArrayVec::new(),
            y: ArrayVec::new(),
            picks: ArrayVec::new(),
            drawn: false,
        }
    }

    // The length of the job without its picks.
    fn length(&self) -> usize
        ensures { result ≡ 20 + 8 * array_vec_len self.now.x }
    {
        20 + 8 * self.x.len()
    }

    fn add_point(&mut self, x: i32, y: i32) -> Result<(), Fault>
        ensures points { OnOk result ((self.new.x.items ≡ self.old.x.items ++ x ∷ []) × (self.new.y.items ≡ self.old.y.items ++ y ∷ [])) }
        ensures picks { self.new.picks ≡ self.old.picks }
    {
        if self.x.is_full() {
            return Err(Fault::ManyPoints);
        }
        if 16384 < 8 + self.length() + 4 * self.picks.len() {
            return Err(Fault::LongJob);
        }
        self.x.push(x);
        self.y.push(y);
        Ok(())
    }

    fn add_pick(&mut self, pick: u32) -> Result<(), Fault>
        ensures picks { OnOk result (self.new.picks.items ≡ self.old.picks.items ++ pick ∷ []) }
        ensures points { (self.new.x ≡ self.old.x) × (self.new.y ≡ self.old.y) }
    {
        if self.drawn {
            return Err(Fault::PicksTwice);
        }
        if 16384 < 4 + self.length() + 4 * self.picks.len() {
            return Err(Fault::LongJob);
        }
        self.picks.push(pick);
        Ok(())
    }

    fn draw_picks(&mut self, seed: u32, count: u32) -> Result<(), Fault>
        ensures picks { OnOk result (self.new.picks.items ≡ map (drawn seed) (up_from 0 count)) }
        ensures points { (self.new.x ≡ self.old.x) × (self.new.y ≡ self.old.y) }
    {
        let count = count as usize;
        if self.drawn || !self.picks.is_empty() {
            return Err(Fault::PicksTwice);
        }
        if 16384 < self.length() + 4 * count {
            return Err(Fault::LongJob);
        }
        draw(seed, count, &mut self.picks);
        self.drawn = true;
        Ok(())
    }

    fn add_line(&mut self, line: &[u8]) -> Result<(), Fault> {
        match read_line(line)? {
            Line::Blank => Ok(()),
            Line::Pad(Pad { x, y }) => self.add_point(x, y),
            Line::Pick(pick) => self.add_pick(pick),
            Line::Picks { seed, count } => self.draw_picks(seed, count),
        }
    }
}

// The board of a text, or what is wrong with it.
pub fn read_board(text: &[u8]) -> Result<Board, TextFault<Fault>> {
    let mut board = Board::new();
    add_lines(text, |line| board.add_line(line))?;
    Ok(board)
}
