// The job reader.
ghost use Rattle.std.specs.Prelude.{◌≡◌, true, ℕ, ◌+◌, ◌*◌, ◌^◌, ◌≤◌, ◌<◌, length, IfOk, OnOk};
ghost use Rattle.job.specs.Words.{word, signed};
ghost use Rattle.job.specs.Steps.{steps};
ghost use Rattle.job.specs.Steps.{tenth as tenth_of};
ghost use Rattle.job.specs.Buffers.{over};
ghost use Rattle.job.specs.Job.{outside, shares_bytes, decide, header_of, Reading};
ghost use Rattle.job.specs.Job.{refusal as refusal_of};
ghost use Rattle.refusal.specs.Number.{refused};

use super::word::word_at;
use refusal::Refusal;

// The points and the picks of a job that was read.
#[derive(Clone, Copy, Debug, PartialEq, Eq)]
pub struct Counts {
    pub points: usize,
    pub picks: usize,
}

// The bytes of a job that its points or its picks take. Start and size come from words of 32 bits, so their sum in 64 does not wrap.
#[derive(Clone, Copy)]
struct Area {
    start: usize,
    size: usize,
}

impl Area {
    // It starts before byte 20, or ends past the total.
    #[tactic(auto, unfolding(crate::specs::Job::outside))]
    fn is_outside(self, total: usize) -> bool
        requires { self.start + self.size < 2 ^ 64 }
        ensures { result ≡ outside self.start self.size total }
    {
        self.start < 20 || total < self.start + self.size
    }

    // A byte belongs to both areas. An empty one has none, even if it starts inside the other.
    #[tactic(auto, unfolding(crate::specs::Job::shares_bytes))]
    fn shares_bytes(self, other: Area) -> bool
        requires { (self.start + self.size < 2 ^ 64) × (other.start + other.size < 2 ^ 64) }
        ensures { result ≡ shares_bytes self.start self.size other.start other.size }
    {
        other.start < self.start + self.size
            && self.start < other.start + other.size
            && 0 < self.size
            && 0 < other.size
    }
}

// How many places the buffers for x, for y and for the picks have.
#[derive(Clone, Copy)]
struct Room {
    x: usize,
    y: usize,
    picks: usize,
}

// The five words at the start of a job.
#[derive(Clone, Copy)]
struct Header {
    points: usize,
    point_start: usize,
    picks: usize,
    pick_start: usize,
    total: usize,
}

impl Header {
    // The checks 10 to 13, and then 2 by the room in the buffers. Check 3 is not made: a word is less than 2³² micrometres, so its steps
    // are always within the range.
    #[tactic(auto, unfolding(crate::specs::Job::decide, crate::specs::Job::outside))]
    fn check(self, len: usize, room: Room) -> Result<(), Refusal>
        requires { (20 ≤ len) × (len ≤ 16384) × (self.point_start < 2 ^ 32) × (self.picks < 2 ^ 32) × (self.pick_start < 2 ^ 32) }
        ensures number { refused result ≡ decide len self.points self.point_start self.picks self.pick_start self.total true room.x room.y room.picks }
        ensures within { OnOk result ((self.point_start + 8 * self.points ≤ len) × (self.pick_start + 4 * self.picks ≤ len)) }
        ensures fits { OnOk result ((self.points ≤ room.x) × (self.points ≤ room.y) × (self.picks ≤ room.picks)) }
    {
        if self.total != len {
            return Err(Refusal::TotalLength);
        }
        if 48 < self.points {
            return Err(Refusal::ManyJobPoints);
        }
        let points = Area {
            start: self.point_start,
            size: 8 * self.points,
        };
        let picks = Area {
            start: self.pick_start,
            size: 4 * self.picks,
        };
        if points.is_outside(len) || picks.is_outside(len) {
            return Err(Refusal::AreaOutside);
        }
        if points.shares_bytes(picks) {
            return Err(Refusal::SharedBytes);
        }
        if room.x < self.points || room.y < self.points || room.picks < self.picks {
            return Err(Refusal::ShortBuffer);
        }
        Ok(())
    }
}

// The nearest tenth part, an exact half upward.
fn tenth(n: u32) -> u32
    requires { n ≤ 2 ^ 31 }
    ensures { result ≡ tenth_of n }
{
    (n + 5) / 10
}

// The steps that a word of micrometres makes. A negative number is rounded as its opposite, so an exact half goes away from zero on both sides.
#[tactic(auto, using(crate::proofs::Rounding::step_low, crate::proofs::Rounding::step_high))]
pub fn step_of(w: u32) -> i32
    ensures { result ≡ steps (signed w) }
{
    if w < 2147483648 {
        return tenth(w) as i32;
    }
    -(tenth(w.wrapping_neg()) as i32)
}

// Reads the first n places of a buffer, each by its number.
pub fn fill<T: Copy, F: Fn(usize) -> T>(out: &mut [T], n: usize, read: F)
    ghost entry: { ℕ → T }
    requires room { n ≤ length out.old }
    requires can { (i : ℕ) → i < n → F.pre read i }
    requires gives { (i : ℕ) (r : _) → i < n → F.post read i r → r ≡ entry i }
    ensures { out.new ≡ over out.old entry n }
{
    let part = &mut out[..n];
    for (i, place) in part.iter_mut().enumerate() {
        *place = read(i);
    }
}

// The header of a job that no check refuses, or the first refusal.
fn accepted_header(job: &[u8], room: Room) -> Result<Header, Refusal>
    ensures number { refused result ≡ refusal_of job.now room.x room.y room.picks }
    ensures words { IfOk result (λ h. h ≡ header_of job.now) }
    ensures within { IfOk result (λ h. (h.point_start + 8 * h.points ≤ length job.now) × (h.pick_start + 4 * h.picks ≤ length job.now)) }
    ensures fits { IfOk result (λ h. (h.points ≤ room.x) × (h.points ≤ room.y) × (h.picks ≤ room.picks)) }
{
    if job.len() < 20 || 16384 < job.len() {
        return Err(Refusal::JobLength);
    }
    let header = Header {
        points: word_at(job, 0) as usize,
        point_start: word_at(job, 4) as usize,
        picks: word_at(job, 8) as usize,
        pick_start: word_at(job, 12) as usize,
        total: word_at(job, 16) as usize,
    };
    header.check(job.len(), room)?;
    Ok(header)
}

// Reads a job: the refusals in order, and only then the steps and the picks.
pub fn read_job(
    job: &[u8],
    x: &mut [i32],
    y: &mut [i32],
    picks: &mut [u32],
) -> Result<Counts, Refusal>
    ensures { Reading job.now x.old y.old picks.old result x.new y.new picks.new }
{
    let room = Room {
        x: x.len(),
        y: y.len(),
        picks: picks.len(),
    };
    let header = accepted_header(job, room)?;
    fill(
        x,
        header.points,
        |i| step_of(word_at(job, header.point_start + 8 * i)),
    );
    fill(
        y,
        header.points,
        |i| step_of(word_at(job, header.point_start + 4 + 8 * i)),
    );
    fill(
        picks,
        header.picks,
        |i| word_at(job, header.pick_start + 4 * i),
    );
    Ok(Counts {
        points: header.points,
        picks: header.picks,
    })
}
