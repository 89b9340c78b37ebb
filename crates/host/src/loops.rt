// The two entries for hosts. C lends each buffer by itself, as a pointer and a length.
ghost use Rattle.std.specs.Prelude.{◌≡◌, List, ℕ, take};
ghost use Rattle.algebra.specs.Ranges.{up_from};
ghost use Rattle.machine.specs.Answer.{Answer as Told};
ghost use Rattle.two_opt.specs.Entry.{answer_of, loan, Entry};
ghost use Rattle.intersection_set.specs.Pool.{lent};
ghost use Rattle.host.specs.Numbers.{in_numbers};

use refusal::Refusal;
use two_opt::entries::{Delivered, resolve_self_intersections, two_opt_moves};
use two_opt::workspace::Workspace;

// An answer in numbers: code 0 with moves and cross for a delivered loop, code 8 with moves and left where the picks are used up, else
// the number of the refusal alone. What a code does not name is 0.
#[repr(C)]
#[derive(Clone, Copy)]
pub struct TourAnswer {
    pub code: u32,
    pub moves: usize,
    pub cross: usize,
    pub left: usize,
}

impl From<Result<Delivered, Refusal>> for TourAnswer {
    ghost from_gives = { λ done told. (ring : List ℕ) → told ≡ in_numbers (answer_of done ring) };

    fn from(done: Result<Delivered, Refusal>) -> TourAnswer {
        match done {
            Ok(Delivered { moves, cross }) => TourAnswer {
                code: 0,
                moves,
                cross,
                left: 0,
            },
            Err(refusal @ Refusal::PicksUsedUp { moves, left }) => TourAnswer {
                code: refusal.number() as u32,
                moves,
                cross: 0,
                left,
            },
            Err(refusal) => TourAnswer {
                code: refusal.number() as u32,
                moves: 0,
                cross: 0,
                left: 0,
            },
        }
    }
}

// A loop through the points, starting in their own order.
#[unsafe(no_mangle)]
pub extern "C" fn tour_two_opt_moves(
    n: usize,
    x: &[i32],
    y: &[i32],
    picks: &[u32],
    ring: &mut [u16],
    index: &mut [u16],
    heads: &mut [u16],
    ends: &mut [u64],
    links: &mut [u64],
    ages: &mut [u32],
    dense: &mut [u16],
    reverse: &mut [u16],
    free: &mut [u16],
    tangles: &mut [u16],
    tree: &mut [i32],
) -> TourAnswer
    ensures { let was = loan ring.old index.old (lent heads.old ends.old links.old ages.old dense.old reverse.old free.old tangles.old) tree.old in
        let is = loan ring.new index.new (lent heads.new ends.new links.new ages.new dense.new reverse.new free.new tangles.new) tree.new in
        ((a : Told) × (result ≡ in_numbers a) × Entry n x.now y.now (up_from 0 n) picks.now was is a) }
{
    let mut work = Workspace {
        ring,
        index,
        heads,
        ends,
        links,
        ages,
        dense,
        reverse,
        free,
        tangles,
        tree,
    };
    two_opt_moves(n, x, y, picks, &mut work).into()
}

// A loop through the points, starting from the lent ring.
#[unsafe(no_mangle)]
pub extern "C" fn tour_resolve_self_intersections(
    n: usize,
    x: &[i32],
    y: &[i32],
    picks: &[u32],
    ring: &mut [u16],
    index: &mut [u16],
    heads: &mut [u16],
    ends: &mut [u64],
    links: &mut [u64],
    ages: &mut [u32],
    dense: &mut [u16],
    reverse: &mut [u16],
    free: &mut [u16],
    tangles: &mut [u16],
    tree: &mut [i32],
) -> TourAnswer
    ensures { let was = loan ring.old index.old (lent heads.old ends.old links.old ages.old dense.old reverse.old free.old tangles.old) tree.old in
        let is = loan ring.new index.new (lent heads.new ends.new links.new ages.new dense.new reverse.new free.new tangles.new) tree.new in
        ((a : Told) × (result ≡ in_numbers a) × Entry n x.now y.now (take n ring.old) picks.now was is a) }
{
    let mut work = Workspace {
        ring,
        index,
        heads,
        ends,
        links,
        ages,
        dense,
        reverse,
        free,
        tangles,
        tree,
    };
    resolve_self_intersections(n, x, y, picks, &mut work).into()
}
