// From a job to the image of its run.
#![tactic(auto)]

ghost use Rattle.std.specs.Prelude.{◌≡◌, ◌≤◌, ℕ, List, length, IfOk};
ghost use Rattle.geometry.specs.Answers.{told};
ghost use Rattle.two_opt.specs.Entry.{answer_of};
ghost use Rattle.stopping.specs.Stopped.{left_of, stopped_run, stopped, Stopping};

use geometry::lent::Points;
use job::reader::{Counts, read_job};
use refusal::Refusal;
use save::{Records, save};
use two_opt::entries::{Delivered, two_opt_moves};
use two_opt::workspace::Workspace;

// How many records a run left. A loop that is delivered has none.
fn records_left(done: Result<Delivered, Refusal>) -> Result<usize, Refusal>
    ensures { (ring : List ℕ) → told result ≡ left_of (answer_of done ring) }
{
    match done {
        Ok(_) => Ok(0),
        Err(Refusal::PicksUsedUp { left, .. }) => Ok(left),
        Err(refusal) => Err(refusal),
    }
}

// Writes the image of the run by the picks. The buffers have room for 48 points, as those of a run that is printed (tour/src/lib.rt).
fn stop_run(points: Points<'_>, picks: &[u32], out: &mut [u8]) -> Result<usize, Refusal>
    requires { (points.n ≤ 48) × (27580 ≤ length out.old) }
    ensures saved { Stopping (stopped_run points.entry.n points.entry.x.now points.entry.y.now picks.now) out.old result out.new }
    ensures within { IfOk result (λ n. n ≤ length out.new) }
{
    let mut ring = [0u16; 48];
    let mut index = [0u16; 48];
    let mut heads = [0u16; 2256];
    let mut ends = [0u64; 2256];
    let mut links = [0u64; 2256];
    let mut ages = [0u32; 2256];
    let mut dense = [0u16; 2256];
    let mut reverse = [0u16; 2256];
    let mut free = [0u16; 2256];
    let mut tangles = [0u16; 2256];
    let mut tree = [0i32; 380];
    let mut work = Workspace {
        ring: &mut ring,
        index: &mut index,
        heads: &mut heads,
        ends: &mut ends,
        links: &mut links,
        ages: &mut ages,
        dense: &mut dense,
        reverse: &mut reverse,
        free: &mut free,
        tangles: &mut tangles,
        tree: &mut tree,
    };
    let done = two_opt_moves(points.n, points.x, points.y, picks, &mut work);
    let live = records_left(done)?;
    let Workspace {
        ring,
        ends,
        ages,
        dense,
        ..
    } = work;
    let records = Records {
        live,
        dense,
        ends,
        ages,
    };
    save(points.n, points.x, points.y, ring, records, out)
}

// Runs a job and writes the image of what its picks leave to the start of `out`: its length. 27,580 bytes hold the longest image, of 48 points and 48×47 records.
// A refused job writes nothing.
pub fn stop(job: &[u8], out: &mut [u8]) -> Result<usize, Refusal>
    requires { 27580 ≤ length out.old }
    ensures saved { Stopping (stopped job.now) out.old result out.new }
    ensures within { IfOk result (λ n. n ≤ length out.new) }
{
    let mut x = [0i32; 48];
    let mut y = [0i32; 48];
    let mut picks = [0u32; 4096];
    let Counts {
        points: n,
        picks: m,
    } = read_job(job, &mut x, &mut y, &mut picks)?;
    stop_run(Points { n, x: &x, y: &y }, &picks[..m], out)
}
