// A stopped run for hosts: its state goes into an image, and a run is taken up from one.
ghost use Rattle.std.specs.Prelude.{◌≡◌, ℕ, Result};
ghost use Rattle.geometry.specs.Answers.{told};
ghost use Rattle.machine.specs.Answer.{Answer as Told};
ghost use Rattle.two_opt.specs.Entry.{loan};
ghost use Rattle.intersection_set.specs.Pool.{lent};
ghost use Rattle.refusal.specs.declared.Refusal.{Refusal};
ghost use Rattle.save.specs.Saved.{Saving};
ghost use Rattle.take_up.specs.TakenUp.{TakenUp};
ghost use Rattle.host.specs.Numbers.{in_numbers, saved_in_numbers};

use super::loops::TourAnswer;
use refusal::Refusal;
use save::{Records, save};
use take_up::take_up;
use two_opt::workspace::Workspace;

// Code 0 with the length of the image, else the number of the refusal and no length.
#[repr(C)]
#[derive(Clone, Copy)]
pub struct TourSaved {
    pub code: u32,
    pub length: usize,
}

impl From<Result<usize, Refusal>> for TourSaved {
    ghost from_gives = { λ saved given. given ≡ saved_in_numbers (told saved) };

    fn from(saved: Result<usize, Refusal>) -> TourSaved {
        match saved {
            Ok(length) => TourSaved { code: 0, length },
            Err(refusal) => TourSaved {
                code: refusal.number() as u32,
                length: 0,
            },
        }
    }
}

// The image of a stopped run, to the start of `out`. Of the records the first `live` of `dense` are read.
#[unsafe(no_mangle)]
pub extern "C" fn tour_save(
    n: usize,
    x: &[i32],
    y: &[i32],
    ring: &[u16],
    live: usize,
    dense: &[u16],
    ends: &[u64],
    ages: &[u32],
    out: &mut [u8],
) -> TourSaved
    ensures { (saved : Result ℕ Refusal) × (result ≡ saved_in_numbers (told saved)) × Saving n x.now y.now ring.now live dense.now ends.now ages.now out.old saved out.new }
{
    let records = Records {
        live,
        dense,
        ends,
        ages,
    };
    save(n, x, y, ring, records, out).into()
}

// A run goes on from an image. Points, ring and records are the image's: what x, y and the buffers of the workspace held is not read.
#[unsafe(no_mangle)]
pub extern "C" fn tour_take_up(
    image: &[u8],
    picks: &[u32],
    x: &mut [i32],
    y: &mut [i32],
    ring: &mut [u16],
    index: &mut [u16],
    heads: &mut [u16],
    ends: &mut [u64],
    links: &mut [u64],
    ages: &mut [u32],
    dense: &mut [u16],
    reverse: &mut [u16],
    free: &mut [u16],
    tangles: &mut [u16],
    tree: &mut [i32],
) -> TourAnswer
    ensures { let was = loan ring.old index.old (lent heads.old ends.old links.old ages.old dense.old reverse.old free.old tangles.old) tree.old in
        let is = loan ring.new index.new (lent heads.new ends.new links.new ages.new dense.new reverse.new free.new tangles.new) tree.new in
        ((a : Told) × (result ≡ in_numbers a) × TakenUp image.now picks.now x.old y.old was x.new y.new is a) }
{
    let mut work = Workspace {
        ring,
        index,
        heads,
        ends,
        links,
        ages,
        dense,
        reverse,
        free,
        tangles,
        tree,
    };
    take_up(image, picks, x, y, &mut work).into()
}
