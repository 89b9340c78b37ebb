// The pads of a loop that was drawn by hand, from its text.
ghost use Rattle.std.specs.Prelude.{◌≡◌, ◌<◌, ◌↔◌, length, Err};
ghost use Rattle.arrayvec.specs.ArrayVec.{array_vec_len};
ghost use Rattle.board_text.specs.declared.fault.TextFault.TheVariants.{TooLong};

use super::fault::Fault;
use arrayvec::ArrayVec;
use board_text::fault::TextFault;
use board_text::line::{Pad, read_pad};
use board_text::lines::add_lines;

// The pads so far, in micrometres. There is room for one more than a loop may have: of that many it is told that they are too many, whatever they are.
#[derive(Drop)]
pub struct Pads {
    pub x: ArrayVec<i32, 257>,
    pub y: ArrayVec<i32, 257>,
    pub ghost paired: { array_vec_len y ≡ array_vec_len x },
}

impl Pads {
    ghost use Rattle.std.specs.Prelude.{◌≡◌, ◌<◌, [], ◌∷◌, ◌++◌};

    fn new() -> Pads
        ensures { (result.x.items ≡ []) × (result.y.items ≡ []) }
    {
        Pads {
            x: ArrayVec::new(),
            y: ArrayVec::new(),
        }
    }

    fn add(&mut self, pad: Pad)
        ensures room { array_vec_len self.old.x < 257 → (self.new.x.items ≡ self.old.x.items ++ pad.x ∷ []) × (self.new.y.items ≡ self.old.y.items ++ pad.y ∷ []) }
        ensures full { array_vec_len self.old.x ≡ 257 → self.new ≡ self.old }
    {
        if !self.x.is_full() {
            self.x.push(pad.x);
            self.y.push(pad.y);
        }
    }

    fn add_line(&mut self, line: &[u8]) -> Result<(), Fault> {
        if let Some(pad) = read_pad(line)? {
            self.add(pad);
        }
        Ok(())
    }
}

// The pads of a text, or what is wrong with it.
pub fn read_pads(text: &[u8]) -> Result<Pads, TextFault<Fault>>
    ensures too_long { (result ≡ Err TooLong) ↔ (262144 < length text.now) }
{
    let mut pads = Pads::new();
    add_lines(text, |line| pads.add_line(line))?;
    Ok(pads)
}
