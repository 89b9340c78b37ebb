// The two entries (two_opt.rs, `two_opt_moves` and `resolve_self_intersections`). They check for themselves; a refused call writes nothing.
ghost use Rattle.std.specs.Prelude.{◌≡◌, cond, List, eqb, take, ℕ};
ghost use Rattle.algebra.specs.Ranges.{up_from};
ghost use Rattle.machine.specs.Answer.{delivered, unfinished};
ghost use Rattle.two_opt.specs.Entry.{answer_of, Entry};
ghost use Rattle.two_opt.specs.Lent.{loan_of, SameWorkspace};

use super::workspace::Workspace;
use refusal::Refusal;
use resolve::resolve::Resolved;

// A loop is delivered: the moves made, and the records at the start.
#[derive(Clone, Copy, Debug, PartialEq, Eq)]
pub struct Delivered {
    pub moves: usize,
    pub cross: usize,
}

// A loop is delivered exactly when no record is left.
pub fn answer_of(done: Resolved) -> Result<Delivered, Refusal>
    ensures { (ring : List ℕ) → answer_of result ring ≡ cond (eqb done.left 0) (delivered ring done.moves done.cross) (unfinished ring done.moves done.left) }
{
    let Resolved { moves, cross, left } = done;
    if left == 0 {
        return Ok(Delivered { moves, cross });
    }
    Err(Refusal::PicksUsedUp { moves, left })
}

// The loop through the points from the ring 0, 1, 2, .., one move for each pick. What ring and index held is not read.
pub fn two_opt_moves(
    n: usize,
    x: &[i32],
    y: &[i32],
    picks: &[u32],
    work: &mut Workspace<'_>,
) -> Result<Delivered, Refusal>
    ensures same { SameWorkspace work.old work.new }
    ensures entry { let is = loan_of work.new in
        Entry n x.now y.now (up_from 0 n) picks.now (loan_of work.old) is (answer_of result (take n is.ring)) }
{
    let points = work.given(n, x, y, picks).check_in_order()?;
    work.start_in_order(n);
    answer_of(work.resolve(points, picks))
}

// The loop from the lent ring, whose first n entries name each point once. What index held is not read. Not one with `two_opt_moves`: here the ring is
// checked, there it is written once the checks are through.
pub fn resolve_self_intersections(
    n: usize,
    x: &[i32],
    y: &[i32],
    picks: &[u32],
    work: &mut Workspace<'_>,
) -> Result<Delivered, Refusal>
    ensures same { SameWorkspace work.old work.new }
    ensures entry { let is = loan_of work.new in
        Entry n x.now y.now (take n work.old.ring.now) picks.now (loan_of work.old) is (answer_of result (take n is.ring)) }
{
    let points = work.given(n, x, y, picks).check_ring(work.ring())?;
    work.start_from_ring(n);
    answer_of(work.resolve(points, picks))
}
