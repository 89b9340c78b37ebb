// The encoder: points in micrometres and picks to a job file.
ghost use Rattle.std.specs.Prelude.{◌≡◌, ◌++◌, ◌+◌, ◌*◌, ◌^◌, ◌≤◌, ◌<◌, length, IfSome};
ghost use Rattle.job.specs.Words.{bytes_of};
ghost use Rattle.job.specs.Encoded.{header, pairs, job_length, Fitting, Made};
ghost use Rattle.job.specs.Writing.{Wrote, HasRoom};

use super::writer::Writer;

// The five words of a job of n points and m picks.
#[tactic(auto, unfolding(crate::specs::Encoded::header))]
fn header(n: u32, m: u32) -> [u32; 5]
    requires { (n ≤ 48) × (m ≤ 4096) }
    ensures { result ≡ header n m }
{
    let end = 20 + 8 * n;
    [n, 20, m, end, end + 4 * m]
}

// The points: x and y of each, in turn.
pub fn put_pairs(w: &mut Writer, x: &[i32], y: &[i32])
    requires { (length x.now ≡ length y.now) × HasRoom w.old (8 * length x.now) }
    ensures { Wrote w.old w.new (bytes_of (pairs x.now y.now (length x.now))) }
{
    for (a, b) in x.iter().zip(y) {
        w.words(&[a.cast_unsigned(), b.cast_unsigned()]);
    }
}

// The length of the job, or none.
#[tactic(auto, unfolding(crate::specs::Encoded::job_length))]
fn job_length(nx: usize, ny: usize, picks: usize, room: usize) -> Option<usize>
    requires { picks * 4 < 2 ^ 63 }
    ensures length { result ≡ job_length nx ny picks room }
    ensures fits { IfSome result (λ total. Fitting nx ny picks room total) }
{
    if ny != nx || 48 < nx {
        return None;
    }
    let total = 20 + 8 * nx + 4 * picks;
    if 16384 < total || room < total {
        return None;
    }
    Some(total)
}

// Writes the job of the points x, y in micrometres and the picks to the start of `out`, and answers its length; none, and nothing
// is written, where x and y differ in length, there are more than 48 points, or the job is longer than 16,384 bytes or `out`.
#[tactic(auto, using(crate::proofs::Bytes::length_bytes, crate::proofs::Encoding::length_pairs))]
pub fn write_job(x: &[i32], y: &[i32], picks: &[u32], out: &mut [u8]) -> Option<usize>
    ensures { Made x.now y.now picks.now out.old result out.new }
{
    let total = job_length(x.len(), y.len(), picks.len(), out.len())?;
    let mut w = Writer::new(out);
    w.words(&header(x.len() as u32, picks.len() as u32));
    put_pairs(&mut w, x, y);
    w.words(picks);
    Some(total)
}
