// From a job to what is printed of it.
#![tactic(auto)]

ghost use Rattle.std.specs.Prelude.{ℕ, ◌+◌, ◌*◌, ◌≤◌, ◌≡◌, length, Ok, Err};
ghost use Rattle.refusal.specs.declared.Refusal.TheVariants.{PicksUsedUp};
ghost use Rattle.geometry.specs.Lent.{points};
ghost use Rattle.geometry.specs.Spots.{spots};
ghost use Rattle.intersection_set.specs.Pool.{tangle_at};
ghost use Rattle.job.specs.Buffers.{Put};
ghost use Rattle.job.specs.Feed.{Drawn};
ghost use Rattle.job.specs.Tallied.{Tallied};
ghost use Rattle.two_opt.specs.Entry.{answer_of};
ghost use Rattle.two_opt.specs.declared.entries.Delivered.{Delivered};
ghost use Rattle.tour.specs.Printed.{told, run_text, printed};

use geometry::lent::Points;
use job::feed::Loop;
use job::reader::{Counts, read_job};
use job::report::{Report, put_report};
use job::tangled::Tangled;
use refusal::Refusal;
use two_opt::entries::{Delivered, two_opt_moves};
use two_opt::workspace::Workspace;

// Writes the text of what a call answered. The ring is the loop that is delivered, or has crossings left, which `tangles` counts by edge.
#[tactic(auto, using(crate::proofs::Told::told_refusal), unfolding(crate::specs::Printed::told, job::specs::Text::report_text))]
pub fn tell(
    done: Result<Delivered, Refusal>,
    x: &[i32],
    y: &[i32],
    ring: &[u16],
    tangles: &[u16],
    out: &mut [u8],
) -> usize
    requires room { 104 + 44 * length ring.now ≤ length out.old }
    requires drawn { (d : Delivered) → done ≡ Ok d → Drawn x.now y.now ring.now }
    requires tallied { (moves left : ℕ) → done ≡ Err (PicksUsedUp moves left) → Tallied ring.now tangles.now }
    ensures put { let n = length ring.now in
        Put out.old 0 (told (points x.now y.now) (λ e. tangle_at n e tangles.now) (answer_of done ring.now)) result out.new }
    ensures within { result ≤ length out.new }
{
    match done {
        Ok(Delivered { moves, cross }) => {
            let told = Loop { x, y, ring };
            put_report(Report::Delivered { moves, cross, told }, out)
        }
        Err(Refusal::PicksUsedUp { left, .. }) => {
            let told = Tangled { ring, tangles };
            put_report(Report::Stopped { left, told }, out)
        }
        Err(refusal) => put_report(Report::Refused(refusal), out),
    }
}

// Writes the text of the answer to the points and the picks. The buffers have room for 48 points: 48×47 places for records, 4×95 numbers for
// the tree. They are arrays, since a library uses no heap.
fn deliver(points: Points<'_>, picks: &[u32], out: &mut [u8]) -> usize
    requires { (points.n ≤ 48) × (2216 ≤ length out.old) }
    ensures put { Put out.old 0 (run_text points.entry.n (spots points.entry) picks.now) result out.new }
    ensures within { result ≤ length out.new }
{
    let mut ring = [0u16; 48];
    let mut index = [0u16; 48];
    let mut heads = [0u16; 2256];
    let mut ends = [0u64; 2256];
    let mut links = [0u64; 2256];
    let mut ages = [0u32; 2256];
    let mut dense = [0u16; 2256];
    let mut reverse = [0u16; 2256];
    let mut free = [0u16; 2256];
    let mut tangles = [0u16; 2256];
    let mut tree = [0i32; 380];
    let mut work = Workspace {
        ring: &mut ring,
        index: &mut index,
        heads: &mut heads,
        ends: &mut ends,
        links: &mut links,
        ages: &mut ages,
        dense: &mut dense,
        reverse: &mut reverse,
        free: &mut free,
        tangles: &mut tangles,
        tree: &mut tree,
    };
    let done = two_opt_moves(points.n, points.x, points.y, picks, &mut work);
    let Workspace { ring, tangles, .. } = work;
    let ring = &ring[..points.n];
    tell(done, points.x, points.y, ring, tangles, out)
}

// Writes what is printed of a job to the start of `out`, and answers its length. 2,216 bytes hold the longest text, that of a loop: 104 for the first line, 44 for
// each of 48 points. `out` may be longer, so that it is no array of that size. Points and picks are read into arrays, as C lends them to the reader.
pub fn tour(job: &[u8], out: &mut [u8]) -> usize
    requires { 2216 ≤ length out.old }
    ensures put { Put out.old 0 (printed job.now) result out.new }
    ensures within { result ≤ length out.new }
{
    let mut x = [0i32; 48];
    let mut y = [0i32; 48];
    let mut picks = [0u32; 4096];
    match read_job(job, &mut x, &mut y, &mut picks) {
        Ok(
            Counts {
                points: n,
                picks: m,
            },
        ) => { deliver(Points { n, x: &x, y: &y }, &picks[..m], out) }
        Err(unread) => put_report(Report::Refused(unread), out),
    }
}
