// The job reader for hosts.
ghost use Rattle.std.specs.Prelude.{◌≡◌, Result};
ghost use Rattle.geometry.specs.Answers.{told};
ghost use Rattle.job.specs.Job.{Reading};
ghost use Rattle.job.specs.declared.reader.Counts.{Counts};
ghost use Rattle.refusal.specs.declared.Refusal.{Refusal};
ghost use Rattle.host.specs.Numbers.{job_in_numbers};

use job::reader::{Counts, read_job};
use refusal::Refusal;

// Code 0 with the counts of points and picks that were read, else the number of the refusal and no counts.
#[repr(C)]
#[derive(Clone, Copy)]
pub struct TourJob {
    pub code: u32,
    pub points: usize,
    pub picks: usize,
}

impl From<Result<Counts, Refusal>> for TourJob {
    ghost from_gives = { λ outcome given. given ≡ job_in_numbers (told outcome) };

    fn from(outcome: Result<Counts, Refusal>) -> TourJob {
        match outcome {
            Ok(Counts { points, picks }) => TourJob {
                code: 0,
                points,
                picks,
            },
            Err(refusal) => TourJob {
                code: refusal.number() as u32,
                points: 0,
                picks: 0,
            },
        }
    }
}

// Reads a job file: its points in steps to the start of x and y, its picks to the start of picks.
#[unsafe(no_mangle)]
pub extern "C" fn tour_read_job(
    job: &[u8],
    x: &mut [i32],
    y: &mut [i32],
    picks: &mut [u32],
) -> TourJob
    ensures { (o : Result Counts Refusal) × (result ≡ job_in_numbers (told o)) × Reading job.now x.old y.old picks.old o x.new y.new picks.new }
{
    read_job(job, x, y, picks).into()
}
